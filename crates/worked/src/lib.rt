// Octets worked by hand: document 01's starred cases, in specs/Cases.antt, and the one statement that
// they hold, in proofs/Worked.antt. There is no code here.
#![tactic(auto)]
