// What the statement on power cuts says of the answers that C is given (specs/ExportedCalls.antt). There is no code
// here.
#![tactic(auto)]
