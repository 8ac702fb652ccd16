// The rule that owns a node.
ghost use Rattle.std.specs.Prelude.{◌≡◌};
ghost use Rattle.image.specs.Grammar.{grammar};
ghost use Rattle.words.specs.Owner as Owner;
ghost use Rattle.words.specs.Owner.{is_part, top, rule_of};

use image::Image;
use image::expr::{Expr, Parts, parts_in};

// Whether a node is a part of an expression.
fn is_part(n: usize, e: Expr) -> bool
    ensures { result ≡ is_part n e }
{
    match parts_in(e) {
        Parts::Leaf => false,
        Parts::One(p) => p == n,
        Parts::Two(l, r) => l == n || r == n,
    }
}

// The root above a node. Parts are below their nodes, so one way up through all nodes is enough.
fn top_of(image: Image, n: usize) -> usize
    ensures { result ≡ top (grammar image.entry.bytes.now) n }
{
    let mut at = n;
    for m in 0..image.node_count() {
        if is_part(at, image.expr_at(m)) {
            at = m;
        }
    }
    at
}

// The rule with a root: the last one, and 0 where there is none.
fn rule_of(image: Image, root: usize) -> usize
    ensures { result ≡ rule_of (grammar image.entry.bytes.now) root }
{
    let mut rule = 0;
    for i in 0..image.rule_count() {
        if image.root_at(i) == root {
            rule = i;
        }
    }
    rule
}

// The number of the rule that owns a node. (The definition says 0 where none does, which no accepted image has.)
pub fn owner(image: Image, n: usize) -> usize
    ensures { result ≡ Owner.owner (grammar image.entry.bytes.now) n }
{
    rule_of(image, top_of(image, n))
}
