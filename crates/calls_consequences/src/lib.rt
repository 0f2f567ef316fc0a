// What follows from the calls on bytes: no code, only theorems about the machine's calls and the words they are said in. Consequences, ResizeConsequences and
// FirstWord have those that a reviewer asks for by name. Assumes nothing.
#![tactic(auto)]
