// What a journal prints, and what stands after its records: definitions and theorems alone.
#![tactic(auto)]
