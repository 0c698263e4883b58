// Definitions and laws on lists that every crate above shares. There is no code here.
#![tactic(auto)]
