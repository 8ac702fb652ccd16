// Kinds: what a node is to the stack pass, with its name, slice and bounds read.
ghost use Rattle.std.specs.Prelude.{◌≡◌};
ghost use Rattle.image.specs.Grammar.{grammar};
ghost use Rattle.image.specs.Promise.{IsNode};
ghost use Rattle.asking.specs.Reading.{held_back};
ghost use Rattle.reading.specs.Promise.{TextRead, SliceRead, BoundsRead, KindAt};

use crate::names::{Name, Names, StackName, name_at};
use image::Image;
use image::expr::Expr;

#[derive(Clone, Copy)]
pub enum Kind {
    // succeeds in place
    InPlace,
    // fails or moves on
    Match,
    Ident(Name),
    // part
    NodeTag(usize),
    // part
    PosPred(usize),
    // part
    NegPred(usize),
    // part
    Opt(usize),
    // part
    Push(usize),
    // its own length
    PushLiteral(usize),
    // left, right
    Seq(usize, usize),
    // left, right
    Choice(usize, usize),
    // part, required copies, and then as many as succeed
    Unbounded(usize, usize),
    // part, required copies, optional copies
    Bounded(usize, usize, usize),
}

// Str and Insens succeed in place where they are empty.
fn text_kind(len: usize) -> Kind
    ensures { TextRead len result }
{
    if len == 0 { Kind::InPlace } else { Kind::Match }
}

// PeekSlice 0 without end is PEEK_ALL; 0 to 0 succeeds in place.
fn slice_kind(start: usize, ends: usize, end: usize) -> Kind
    ensures { SliceRead start ends end result }
{
    match (start, ends, end) {
        (0, 0, _) => Kind::Ident(Name::Stack(StackName::PeekAll)),
        (0, _, 0) => Kind::InPlace,
        _ => Kind::Match,
    }
}

// RepMinMax: where min is above max, max copies are required and none is optional.
fn bounded_kind(part: usize, least: usize, most: usize) -> Kind
    ensures { BoundsRead part least most result }
{
    Kind::Bounded(part, least.min(most), most.saturating_sub(least))
}

// What a node is.
#[tactic(auto, unfolding(asking::specs::Reading::kind_of))]
pub fn kind_at(names: Names, n: usize) -> Kind
    requires { IsNode names.image.bytes.now n }
    ensures { KindAt names.entry.image.bytes.now n result }
{
    match names.image.expr_at(n) {
        Expr::Str(_, len) | Expr::Insens(_, len) => text_kind(len),
        Expr::Range => Kind::Match,
        Expr::Ident(_, _) => Kind::Ident(name_at(names, n)),
        Expr::PeekSlice(start, ends, end) => slice_kind(start, ends, end),
        Expr::PosPred(part) => Kind::PosPred(part),
        Expr::NegPred(part) => Kind::NegPred(part),
        Expr::Seq(left, right) => Kind::Seq(left, right),
        Expr::Choice(left, right) => Kind::Choice(left, right),
        Expr::Opt(part) => Kind::Opt(part),
        Expr::Rep(part) => Kind::Unbounded(part, 0),
        Expr::RepOnce(part) => Kind::Unbounded(part, 1),
        Expr::RepExact(part, count) => Kind::Bounded(part, count, 0),
        Expr::RepMin(part, count) => Kind::Unbounded(part, count),
        Expr::RepMax(part, count) => Kind::Bounded(part, 0, count),
        Expr::RepMinMax(part, least, most) => bounded_kind(part, least, most),
        Expr::Push(part) => Kind::Push(part),
        Expr::PushLiteral(_, len) => Kind::PushLiteral(len),
        Expr::NodeTag(part) => Kind::NodeTag(part),
    }
}

// A report is held back if the body has bit 1 or 2.
#[tactic(auto, using(crate::proofs::KindLaws::held_bits), unfolding(asking::specs::Reading::held_back))]
pub fn held_back(image: Image, part: usize) -> bool
    requires { IsNode image.bytes.now part }
    ensures { result ≡ held_back (grammar image.entry.bytes.now) part }
{
    image.bits_at(part) & 3 != 0
}
