// The statement on power cuts is about something: a sound area that holds a sample record, worked in
// proofs/Record.antt, and each of the six calls and a repair accepted on it, in proofs/Calls.antt (P1). It stands above
// that statement, so that an edit of it does not compute the sample again. There is no code here.
#![tactic(auto)]
