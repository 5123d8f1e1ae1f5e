// One column moved through products of matrices. Definitions and theorems only.
#![tactic(auto)]
