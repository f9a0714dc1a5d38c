// The header fields that are read are the protocol's fields of the same bytes: theorems over what `headers` and `protocol` state. There is no code here.
#![tactic(auto)]
