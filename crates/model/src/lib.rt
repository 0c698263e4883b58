// The plain model of the task table: definitions and laws. There is no code here.
#![tactic(auto)]
