// Normal forms as a group: why the known test decides consistency. No code: definitions in specs/, theorems in proofs/.
#![tactic(auto)]
