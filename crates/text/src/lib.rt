// Texts as lists of bytes: definitions and laws only. There is no code here.
#![tactic(auto)]
