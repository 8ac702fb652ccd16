// Skips: whether WHITESPACE or COMMENT is a rule, and whether either may change the stack (`rule_modifies_stack`).
ghost use Rattle.std.specs.Prelude.{◌≡◌, ◌<◌, length};
ghost use Rattle.image.specs.Grammar.{grammar};
ghost use Rattle.image.specs.Promise.{IsNode, IsRule};
ghost use Rattle.asking.specs.Reading.{skips_of};
ghost use Rattle.asking.specs.Modifies.{skips_modify, rule_modifies};
ghost use Rattle.reading.specs.Names.{FoundBelow};
ghost use Rattle.reading.specs.Marks.{Follows, FollowsFound, FollowsName, FollowsNode};
ghost use Rattle.reading.specs.Promise.{AtIdent};

use crate::looks::{Look, look_at};
use crate::names::{Names, StackName, builtin_at, rule_at};
use image::Image;

// WHITESPACE or COMMENT is a rule.
#[tactic(auto, unfolding(asking::specs::Reading::skips_of))]
pub fn skips(image: Image) -> bool
    ensures { result ≡ skips_of (grammar image.entry.bytes.now) }
{
    image.find_rule(b"WHITESPACE").is_some() || image.find_rule(b"COMMENT").is_some()
}

// A search for what may change the stack, with a mark for each rule that it has looked into.
#[derive(Drop)]
struct Looking<'a> {
    names: Names<'a>,
    seen: [bool; 256],
}

impl<'a> Looking<'a> {
    ghost use Rattle.reading.specs.Search.{SameImage};

    // What a name stands for may change the stack: the rule that was found, if one was. At most `unseen` rules have no mark.
    #[cycle(modifying)]
    fn found_modifies(&mut self, unseen: usize, found: Option<usize>) -> bool
        requires { FoundBelow (length (grammar self.old.names.image.bytes.now).rules) found }
        ensures same { SameImage self.old self.new }
        ensures follows { FollowsFound (grammar self.old.names.image.bytes.now) unseen found self.old.seen result self.new.seen }
    {
        // no `is_some_and`: a closure that calls back into the cycle would need clauses of its own
        match found {
            Some(i) => self.rule_modifies(unseen, i),
            None => false,
        }
    }

    // A rule may change the stack; one that was seen is not looked into again.
    #[cycle(modifying)]
    #[tactic(auto, using(image::proofs::GrammarLaws::formed))]
    fn rule_modifies(&mut self, unseen: usize, i: usize) -> bool
        requires { IsRule self.old.names.image.bytes.now i }
        ensures same { SameImage self.old self.new }
        ensures follows { Follows (rule_modifies (grammar self.old.names.image.bytes.now) unseen i) self.old.seen result self.new.seen }
    {
        if unseen == 0 || self.seen[i] {
            return false;
        }
        self.seen[i] = true;
        self.node_modifies(unseen - 1, self.names.image.root_at(i))
    }

    // An Ident may change the stack: a built-in name does or does not, and any other name is a rule's.
    #[cycle(modifying)]
    fn name_modifies(&mut self, unseen: usize, n: usize) -> bool
        requires { AtIdent self.old.names.image.bytes.now n }
        ensures same { SameImage self.old self.new }
        ensures follows { FollowsName (grammar self.old.names.image.bytes.now) unseen n self.old.seen result self.new.seen }
    {
        builtin_at(self.names.words, n).is_some_and(StackName::changes)
            || self.found_modifies(unseen, rule_at(self.names.words, n))
    }

    // A node may change the stack. Predicates restore it; counts are not looked at.
    #[cycle(modifying)]
    fn node_modifies(&mut self, unseen: usize, n: usize) -> bool
        requires { IsNode self.old.names.image.bytes.now n }
        ensures same { SameImage self.old self.new }
        ensures follows { FollowsNode (grammar self.old.names.image.bytes.now) unseen n self.old.seen result self.new.seen }
    {
        match look_at(self.names.image, n) {
            Look::Keeps => false,
            Look::Changes => true,
            Look::Named(_, _) => self.name_modifies(unseen, n),
            Look::One(part) => self.node_modifies(unseen, part),
            Look::Two(left, right) => {
                self.node_modifies(unseen, left) || self.node_modifies(unseen, right)
            }
        }
    }
}

// WHITESPACE or COMMENT may change the stack.
pub fn skips_modify(names: Names) -> bool
    ensures { result ≡ skips_modify (grammar names.entry.image.bytes.now) }
{
    let mut looking = Looking {
        names,
        seen: [false; 256],
    };
    let unseen = names.image.rule_count();
    looking.found_modifies(unseen, names.image.find_rule(b"WHITESPACE"))
        || looking.found_modifies(unseen, names.image.find_rule(b"COMMENT"))
}
