// What the counters of a task table and its occupied slots are, told from the calls that were made: definitions and theorems only. There is no code here.
#![tactic(auto)]
