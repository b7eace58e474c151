// The user's demands, and BLOCK and DEPTH, each as one theorem over what the entries promise.
#![tactic(auto)]
