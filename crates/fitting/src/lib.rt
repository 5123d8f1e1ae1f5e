// A level compared with the level below: what is tested of it, and that a table which passes the test passes the judgement. No code.
#![tactic(auto)]
