// AUTOSAR's layout of a DLT message as definitions (specs/) and theorems on the crate's readings (proofs/). There is no code here.
#![tactic(auto)]
