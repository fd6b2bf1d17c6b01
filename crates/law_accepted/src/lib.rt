// That what is read of any file is a game that the writer accepts: definitions and laws only.
#![tactic(auto)]
