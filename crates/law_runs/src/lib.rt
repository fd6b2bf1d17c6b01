// Where the run of all frames stands in a written file: a theorem about two crates that know nothing of each other, and no code.
#![tactic(auto)]
