// What is packed is taken and shows what was given, and a tight capsule that is read is packed again to the same bytes
// (C33 to C37): specs/RoundTrip.antt. There is no code here.
#![tactic(auto)]
