// Keepings and returns reduce to lists of calls: theorems of the definitions. There is no code here.
#![tactic(auto)]
