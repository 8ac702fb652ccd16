// An image that refusals 1 to 3 leave: its counts, and where its rules, its nodes and its text stand.
ghost use Rattle.std.specs.Prelude.{◌≡◌, ◌+◌, ◌≤◌, ◌<◌, ℕ, List, length};
ghost use Rattle.image.specs.Layout.{rule_count, node_count, text_count, rule_pos, node_pos, node_expr, text_part, name_of, root_of};
ghost use Rattle.image.specs.Accepted.{Framed, Ruled};

use crate::expr::Expr;
use crate::fields::{expr_of, read32};
use std::marker::Model;

// Counts are within their limits, and every position and the length are as the layout says.
#[derive(Drop)]
pub(crate) struct Frame<'a> {
    pub(crate) image: &'a [u8],
}

impl<'a> Model for Frame<'a> {
    ghost Value = { List ℕ };

    ghost view = { λ f. f.image.now };

    ghost invariant = { λ f. Framed f.image.now };
}

impl<'a> Frame<'a> {
    // How many rules there are.
    pub(crate) fn rule_count(&self) -> usize
        ensures { result ≡ rule_count self.now }
    {
        read32(self.image, 4)
    }

    // How many nodes there are.
    pub(crate) fn node_count(&self) -> usize
        ensures { (result ≡ node_count self.now) × (result ≤ 2048) }
    {
        read32(self.image, 12)
    }

    // How many bytes the text has.
    pub(crate) fn text_count(&self) -> usize
        ensures { result ≡ text_count self.now }
    {
        read32(self.image, 20)
    }

    // Where rule i stands, 12 bytes.
    pub(crate) fn rule_pos(&self, i: usize) -> usize
        requires { i < rule_count self.now }
        ensures { (result ≡ rule_pos self.now i) × (result + 12 ≤ length self.now) }
    {
        read32(self.image, 0) + 12 * i
    }

    // Where node n stands, 24 bytes.
    pub(crate) fn node_pos(&self, n: usize) -> usize
        requires { n < node_count self.now }
        ensures { (result ≡ node_pos self.now n) × (result + 24 ≤ length self.now) }
    {
        read32(self.image, 8) + 24 * n
    }

    // The expression of a node.
    #[tactic(auto, unfolding(crate::specs::Layout::node_expr))]
    pub(crate) fn node_expr(&self, n: usize) -> Expr
        requires { n < node_count self.now }
        ensures { result ≡ node_expr self.now n }
    {
        let at = self.node_pos(n);
        let a = read32(self.image, at + 4);
        let b = read32(self.image, at + 8);
        let c = read32(self.image, at + 12);
        expr_of(self.image[at], a, b, c)
    }

    // The bytes of the text from a position in it.
    pub(crate) fn text_part(&self, at: usize, len: usize) -> &'a [u8]
        requires { at + len ≤ text_count self.now }
        ensures { result.now ≡ text_part self.now at len }
    {
        let from = read32(self.image, 16) + at;
        &self.image[from..from + len]
    }
}

// And each rule has a name inside the text, and a root that is a node (refusal 5).
#[derive(Drop)]
pub(crate) struct Rules<'a> {
    pub(crate) frame: Frame<'a>,
}

impl<'a> Model for Rules<'a> {
    ghost Value = { List ℕ };

    ghost view = { λ r. r.frame };

    ghost invariant = { λ r. Ruled r.frame };
}

impl<'a> Rules<'a> {
    // The name of a rule.
    pub(crate) fn name_at(&self, i: usize) -> &'a [u8]
        requires { i < rule_count self.now }
        ensures { result.now ≡ name_of self.now i }
    {
        let at = self.frame.rule_pos(i);
        let pos = read32(self.frame.image, at);
        let len = read32(self.frame.image, at + 4);
        self.frame.text_part(pos, len)
    }

    // The root of a rule.
    pub(crate) fn root_at(&self, i: usize) -> usize
        requires { i < rule_count self.now }
        ensures { (result ≡ root_of self.now i) × (result < 2048) }
    {
        read32(self.frame.image, self.frame.rule_pos(i) + 8)
    }
}
