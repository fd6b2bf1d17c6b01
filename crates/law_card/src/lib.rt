// Theorems alone, over the definitions of the writer and of the rows: specs/Card.antt says what two games agree in, proofs/ what follows. There is no code here.
#![tactic(auto)]
