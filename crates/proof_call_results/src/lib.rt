// What an accepted call tells (specs/CallResults.antt). There is no code here.
#![tactic(auto)]
