// The events between two places of a file: laws over what its bytes say of them, one event at a time. No code.
#![tactic(auto)]
