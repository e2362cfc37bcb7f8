// The invariant over the rules, and what code leans on: theorems only, no code.
#![tactic(auto)]
