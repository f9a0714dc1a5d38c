// Theorems of what a need of the message rule is worth, and that the source's `ParsedMessage::Invalid` never comes out. There is no code here.
#![tactic(auto)]
