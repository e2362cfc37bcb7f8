// What the invariant gives to code over lent slices: the numbers of a list are there. Theorems only, no code.
#![tactic(auto)]
