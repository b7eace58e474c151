// Laws over lists: what a loop leaves that stores one element after the other.
#![tactic(auto)]
