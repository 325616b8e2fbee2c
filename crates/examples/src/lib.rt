// The worked examples of docs/RULES.md, as theorems: proofs/Table.antt has them all.
#![tactic(auto)]
