// The theorems about blocks: the walk with open blocks is the grammar.
#![tactic(auto)]
