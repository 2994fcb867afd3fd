// Water is conserved: theorems of the definitions of flow and reserve. There is no code here.
#![tactic(auto)]
