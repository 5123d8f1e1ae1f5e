// Laws of numbers, tests and counted lists that the proofs above share. No code: everything stands in proofs/.
#![tactic(auto)]
