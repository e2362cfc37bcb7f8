// Demand 3 over the rules and the public calls: theorems only, no code. Code leans on none of them.
#![tactic(auto)]
