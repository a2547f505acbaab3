// Calls that add a keystream and make no tag, over any cipher: what they promise, and its laws.
#![tactic(auto)]
