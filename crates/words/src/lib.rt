// What the command says, in words: texts by the numbers of document 01, a picture of a stack, the rule that owns a node.
#![tactic(auto)]

pub mod line;
pub mod number;
pub mod owner;
pub mod picture;
pub mod texts;
