// Facts of lists, counts and sums: theorems only, no code.
#![tactic(auto)]
