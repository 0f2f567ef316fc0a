// Short histories on bytes, and what differs between two heaps, computed: no code, only theorems. Assumes nothing.
#![tactic(auto)]
