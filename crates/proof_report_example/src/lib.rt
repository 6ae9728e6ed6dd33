// The customer's example of a report, proved of the definition (specs/Example.antt). There is no code here.
#![tactic(auto)]
