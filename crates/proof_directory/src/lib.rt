// What is written is read back, and what is read is what would be written (I11 to I13): specs/RoundTrip.antt.
// There is no code here.
#![tactic(auto)]
