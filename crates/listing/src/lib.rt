// The theorems about the records of a cutting.
#![tactic(auto)]
