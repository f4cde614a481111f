// Reading and writing are inverse to each other: the definitions that say so, in specs/, and the
// theorems, one file each, in proofs/. There is no code here.
#![tactic(auto)]
