// What the rules give, computed: histories of the Rust, and public calls on small slices. Theorems only, no code.
#![tactic(auto)]
