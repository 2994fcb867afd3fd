// The cases of document 01, two of rain in tenths and two of well water that comes back are theorems of the definitions, in specs/; there is no code.
#![tactic(auto)]
