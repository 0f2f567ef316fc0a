// Document 01's examples on bytes, computed: no code, only theorems. Assumes nothing.
#![tactic(auto)]
