// Names: each Ident's name is resolved once, into a word that tells the built-in stack name and the rule.
ghost use Rattle.std.specs.Prelude.{◌≡◌, ◌<◌, ◌≤◌, ◌/◌, length, get_or};
ghost use Rattle.image.specs.Grammar.{grammar};
ghost use Rattle.image.specs.Promise.{IsNode};
ghost use Rattle.reading.specs.Names.{changes, builtin_number, number_of, name_word, WordAt, Resolved, FoundBelow};
ghost use Rattle.reading.specs.Promise.{AtIdent, NameFound, NameAt, RuleAt};

use crate::looks::{Look, look_at};
use image::{Image, same_bytes};

// A built-in stack name, by its number in a word. 0 is the number of none.
#[derive(Clone, Copy, Debug, PartialEq, Eq)]
pub enum StackName {
    Peek = 1,
    PeekAll = 2,
    Pop = 3,
    PopAll = 4,
    Drop = 5,
}

impl StackName {
    // POP, POP_ALL and DROP change the stack.
    pub(crate) fn changes(self) -> bool
        ensures { result ≡ changes self }
    {
        matches!(self, StackName::Pop | StackName::PopAll | StackName::Drop)
    }
}

// What a name is: a built-in stack name, a rule's (the rule's root), or unknown.
#[derive(Clone, Copy, Debug, PartialEq, Eq)]
pub enum Name {
    Stack(StackName),
    Rule(usize),
    Unknown,
}

// The built-in stack name that a name is, if it is one.
#[tactic(auto, unfolding(crate::specs::Names::builtin_number))]
pub fn builtin(name: &[u8]) -> Option<StackName>
    ensures { number_of result ≡ builtin_number name.now }
{
    if same_bytes(name, b"PEEK") {
        Some(StackName::Peek)
    } else if same_bytes(name, b"PEEK_ALL") {
        Some(StackName::PeekAll)
    } else if same_bytes(name, b"POP") {
        Some(StackName::Pop)
    } else if same_bytes(name, b"POP_ALL") {
        Some(StackName::PopAll)
    } else if same_bytes(name, b"DROP") {
        Some(StackName::Drop)
    } else {
        None
    }
}

// The word of a name: built-in × 512 + rule, and a rule's number is one more, as 0 is that of none.
#[tactic(auto, using(image::proofs::GrammarLaws::formed), unfolding(crate::specs::Names::name_word))]
pub fn name_word(image: Image, name: &[u8]) -> u16
    ensures { result ≡ name_word (grammar image.entry.bytes.now) name.now }
{
    let rule = image.find_rule(name).map_or(0, |i| i as u16 + 1);
    builtin(name).map_or(0, |b| b as u16) * 512 + rule
}

// The word of a node: an Ident's is that of its name, other nodes have 0.
fn word_at(image: Image, n: usize) -> u16
    requires { IsNode image.bytes.now n }
    ensures { WordAt (grammar image.entry.bytes.now) n result }
{
    match look_at(image, n) {
        Look::Named(at, len) => name_word(image, image.text_of(at, len)),
        _ => 0,
    }
}

// Every node's name, resolved: one word each, in fixed memory that the caller lends, and zeros past the last node.
#[tactic(auto, using(crate::proofs::NameLaws::words_more))]
pub fn resolve(image: Image, names: &mut [u16; 2048])
    ensures { Resolved (grammar image.entry.bytes.now) names.new }
{
    let count = image.node_count();
    for n in 0..count {
        names[n] = word_at(image, n);
    }
    for n in count..2048 {
        names[n] = 0;
    }
}

// An image with its names resolved: one word a node, which the caller lends.
#[derive(Clone, Copy)]
pub struct Names<'a> {
    pub image: Image<'a>,
    pub words: &'a [u16; 2048],
    pub ghost resolved: { Resolved (grammar image.bytes.now) words.now },
}

// The built-in stack name that an Ident's name is, if it is one.
pub(crate) fn builtin_at(names: &[u16; 2048], n: usize) -> Option<StackName>
    requires { n < 2048 }
    ensures { get_or names.now n 0 / 512 ≤ 5 → number_of result ≡ get_or names.now n 0 / 512 }
{
    match names[n] / 512 {
        1 => Some(StackName::Peek),
        2 => Some(StackName::PeekAll),
        3 => Some(StackName::Pop),
        4 => Some(StackName::PopAll),
        5 => Some(StackName::Drop),
        _ => None,
    }
}

// The rule that an Ident names, whether or not its name is built in.
#[tactic(auto, using(crate::proofs::NameLaws::rule_told))]
pub fn rule_at(names: &[u16; 2048], n: usize) -> Option<usize>
    requires { n < 2048 }
    ensures { RuleAt names.now n result }
{
    (names[n] as usize % 512).checked_sub(1)
}

// A name that is not built in: a rule's, or unknown.
fn found_name(image: Image, found: Option<usize>) -> Name
    requires { FoundBelow (length (grammar image.bytes.now).rules) found }
    ensures { NameFound image.entry.bytes.now found result }
{
    match found {
        Some(i) => Name::Rule(image.root_at(i)),
        None => Name::Unknown,
    }
}

// What the name of an Ident is. Built-in stack names come before rules.
pub fn name_at(names: Names, n: usize) -> Name
    requires { AtIdent names.image.bytes.now n }
    ensures { NameAt names.entry.image.bytes.now n result }
{
    match builtin_at(names.words, n) {
        Some(builtin) => Name::Stack(builtin),
        None => found_name(names.image, rule_at(names.words, n)),
    }
}
