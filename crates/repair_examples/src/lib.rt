// Repairs on bytes, computed: no code, only theorems. Assumes nothing.
#![tactic(auto)]
