// The theorems about one instruction and its own tokens, and about the one way to cut a stream.
#![tactic(auto)]
