// That a file which was written, read and written again is the same file: definitions and laws only.
#![tactic(auto)]
