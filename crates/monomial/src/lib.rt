// Monomial matrices as maps of basis indices, and Schur's lemma for families of them. No code: definitions in specs/, theorems in proofs/.
#![tactic(auto)]
