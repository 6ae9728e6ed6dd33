// What the definitions of capsules compute on a small capsule, and the customer's sample 12 (specs/Samples.antt). There
// is no code here.
#![tactic(auto)]
