// That room is enough: theorems about every file that the writer gives, and no code.
#![tactic(auto)]
