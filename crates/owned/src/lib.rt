// Theorems of the bytes that a reading hangs on: a message that is confined to its declared bytes hangs on these alone. There is no code here.
#![tactic(auto)]
