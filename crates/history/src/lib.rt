// Demand 3: what every list of postings, receipts and releases answers, and what the listing shows before and
// after each. The definitions stand in specs/, the theorem in proofs/. There is no code here.
#![tactic(auto)]
