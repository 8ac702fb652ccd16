// How the lent tables stand for what the definition remembers, and how questions asked in a row come to one answer: definitions and
// laws that the code of the stack pass is proved by, no code.
#![tactic(auto)]
