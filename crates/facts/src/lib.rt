// The laws bite: wrong steps in place of the rules, each refused. Theorems only, no code.
#![tactic(auto)]
