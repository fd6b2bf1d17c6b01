// There and back: what the writer and the reader of a metadata map are to each other.
#![tactic(auto)]
