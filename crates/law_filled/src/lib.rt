// What the second pass leaves in the stores, by the replay's tree: laws, no code.
#![tactic(auto)]
