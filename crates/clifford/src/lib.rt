// From the representations of one level of the chief series to those of the next: the table of the steps passes the
// judgement. No code: definitions in specs/, theorems in proofs/.
#![tactic(auto)]
