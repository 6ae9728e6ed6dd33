// Record version 2 under power cuts (P2 to P6): a change to any sound record and a repair, cut after any of their
// stores. The statement stands in specs/, its proof in proofs/, over the argument of crate proof_format_cuts. There is
// no code here.
#![tactic(auto)]
