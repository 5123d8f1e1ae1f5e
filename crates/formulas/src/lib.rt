// Theory only: each entry of a level as a closed formula of entries of the level below.
#![tactic(auto)]
