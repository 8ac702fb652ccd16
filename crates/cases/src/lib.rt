// Document 01's starred cases, as one table under one statement: definitions and theorems, no code.
#![tactic(auto)]
