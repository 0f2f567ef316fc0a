// When bytes are those of a sound heap, and that every step keeps it: no code, only definitions and laws. Assumes nothing.
#![tactic(auto)]
