// Reading into lent octets: what it leaves, and the laws of octets that are filled from the left. There is no code here.
#![tactic(auto)]
