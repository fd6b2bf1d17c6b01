// Small files and the worked cases' files, and what is read of them: definitions and laws only.
#![tactic(auto)]
