// Demand 3, how long a ready task waits: definitions and theorems only. There is no code here.
#![tactic(auto)]
