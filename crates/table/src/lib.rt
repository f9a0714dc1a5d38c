// Lists written over others from a place on: what a function leaves in a lent slice of numbers. There is no code here.
#![tactic(auto)]
