// The shop pieces of document 01, proved of the definitions.
#![tactic(auto)]
