// The whole output of a script: definitions and laws only. There is no code here.
#![tactic(auto)]
