// Document 01's demand 3 stated over the whole check, of every report number that it gives: definitions and theorems, no code.
#![tactic(auto)]
