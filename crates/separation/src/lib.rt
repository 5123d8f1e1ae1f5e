// What decides, on a level above one whose basis indices are reached and separated, whether its own are: no product is
// walked. No code: definitions in specs/, theorems in proofs/.
#![tactic(auto)]
