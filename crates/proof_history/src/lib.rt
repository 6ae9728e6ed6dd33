// One history of start-ups, repairs and calls: specs/History.antt. There is no code here.
#![tactic(auto)]
