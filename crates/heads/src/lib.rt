// The heads of a table's lines. Definitions and theorems only.
#![tactic(auto)]
