// The customer's samples 1 to 7 and 9 to 11, proved together from the definitions (specs/Samples.antt). There is no
// code here.
#![tactic(auto)]
