// How much of a file is a replay, whatever its length field says: definition and laws, no code.
#![tactic(auto)]
