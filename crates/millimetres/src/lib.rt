// Books without a PD print as by document 01's rule in millimetres: theorems of the definitions. There is no code here.
#![tactic(auto)]
