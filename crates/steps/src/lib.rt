// What the stores of a call on a task table come to in the model: laws only. There is no code here.
#![tactic(auto)]
