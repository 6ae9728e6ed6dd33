// What power cuts leave, of start-up, repair and the six calls (P1 to P13): the statement stands in
// specs/PowerCuts.antt, its proof in proofs/. There is no code here.
#![tactic(auto)]
