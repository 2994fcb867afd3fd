// Each value of a moving window is the natural runoff that a book of its years gives: theorems of the definitions. There is no code here.
#![tactic(auto)]
