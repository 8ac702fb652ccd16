// What is asked about a grammar's stack, in which order, what is remembered and what is reported: definitions, and the theorems that
// every answer is sound on the stack machine and that a reported repetition never ends. The code that is proved equal to the
// definitions stands in `analysis`.
#![tactic(auto)]
