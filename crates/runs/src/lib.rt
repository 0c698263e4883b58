// Runs of calls on the four tables of the product: definitions and theorems only. There is no code here.
#![tactic(auto)]
