// Every accepted call keeps the record sound: the statements stand in specs/, their proof in proofs/. There is no code
// here.
#![tactic(auto)]
