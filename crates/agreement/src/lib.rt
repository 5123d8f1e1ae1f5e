// The closed formulas of a level are the steps, on every level of an accepted presentation. No code: theorems in proofs/.
#![tactic(auto)]
