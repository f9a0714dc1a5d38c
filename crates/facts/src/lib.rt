// Theorems of the message rule that `parse` states and meets: its laws, document 01's two facts, its twelve sums. There is no code here.
#![tactic(auto)]
