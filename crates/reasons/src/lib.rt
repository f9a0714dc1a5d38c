// Theorems of the Hickup reasons: which of them come out of each call, and that 3 comes out of none. There is no code here.
#![tactic(auto)]
