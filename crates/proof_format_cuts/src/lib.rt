// What survives a power cut, over any format of the record and any writer of its copies: the statement stands in
// specs/Theorem.antt, its proof in proofs/. Record version 2 as such a format is crate proof_record_cuts. There is no
// code here.
#![tactic(auto)]
