// The theory of the calls on rows held by key: comparisons, lists by key, operations on them, and lists of
// calls. The definitions stand in specs/, the laws in proofs/. There is no code here.
#![tactic(auto)]
