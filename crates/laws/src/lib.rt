// Theorems about the rules, in proofs/, and the words that they speak in, in specs/. There is no code here.
#![tactic(auto)]
