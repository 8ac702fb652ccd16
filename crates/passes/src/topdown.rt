// `validate_repetition` and `validate_choices`: reasons 1, 2 and 4, top down, left first, rules in order.
ghost use Rattle.std.specs.Prelude.{◌≡◌, ◌<◌, ℕ, List, Option, length};
ghost use Rattle.std.specs.Option.{option_to_list};
ghost use Rattle.image.specs.Grammar.{grammar};
ghost use Rattle.image.specs.Promise.{IsNode};
ghost use Rattle.passes.specs.Report.{flat};
ghost use Rattle.passes.specs.TopDown.{top_down, nodes_down, repeat_report, repetition_at, judged_side, choice_at, validate_repetition, validate_choices};
ghost use Rattle.passes.specs.Promise.{held, place_all, Placed, Leaves};
ghost use Rattle.passes.specs.Steps.{Finds, PartsDown};

use crate::placing::{Reason, put, report_of};
use image::Image;
use image::expr::{Expr, Parts, parts_in};
use image::refusal::Refusal;

// What the bits of a repetition's part give, reason 1 before 2.
fn repeat_report(n: usize, bits: u8) -> Option<u64>
    requires { n < 65536 }
    ensures { option_to_list result ≡ repeat_report n bits }
{
    if bits % 2 == 1 {
        return Some(report_of(n, Reason::RepetitionCannotFail));
    }
    if bits / 2 % 2 == 1 {
        return Some(report_of(n, Reason::NotProgressing));
    }
    None
}

// The report of a repetition.
fn repetition_at(image: Image, n: usize) -> Option<u64>
    requires { IsNode image.bytes.now n }
    ensures { option_to_list result ≡ repetition_at (grammar image.entry.bytes.now) n }
{
    match image.expr_at(n) {
        Expr::Rep(part) | Expr::RepOnce(part) | Expr::RepMin(part, _) => {
            repeat_report(n, image.bits_at(part))
        }
        _ => None,
    }
}

// The judged side of a Choice with this left: the left's right where the left is a Choice.
fn judged_side(image: Image, left: usize) -> usize
    requires { IsNode image.bytes.now left }
    ensures { (result ≡ judged_side (grammar image.entry.bytes.now) left) × (result < length (grammar image.entry.bytes.now).nodes) }
{
    match image.expr_at(left) {
        Expr::Choice(_, right) => right,
        _ => left,
    }
}

// The report of a Choice's judged side.
fn choice_at(image: Image, n: usize) -> Option<u64>
    requires { IsNode image.bytes.now n }
    ensures { option_to_list result ≡ choice_at (grammar image.entry.bytes.now) n }
{
    let Expr::Choice(left, _) = image.expr_at(n) else {
        return None;
    };
    let side = judged_side(image, left);
    (image.bits_at(side) % 2 == 1).then_some(report_of(side, Reason::ChoiceUnreachable))
}

// The parts that the passes go on to: none below a NodeTag.
fn parts_down(image: Image, n: usize) -> Parts
    requires { IsNode image.bytes.now n }
    ensures { PartsDown (grammar image.entry.bytes.now) n result }
{
    match image.expr_at(n) {
        Expr::NodeTag(_) => Parts::Leaf,
        e => parts_in(e),
    }
}

// Places what `find` reports of a node. The count with it.
fn note<F: Fn(usize) -> Option<u64>>(
    find: &F,
    n: usize,
    table: &mut [u8],
    count: usize,
) -> Result<usize, Refusal>
    requires { F.pre find.now n }
    ensures { (due : List ℕ) → ((r : Option ℕ) → F.post find.now n r → option_to_list r ≡ due) → Leaves result table.new (place_all (held table.old count) due) }
{
    match find(n) {
        Some(x) => put(table, count, x),
        None => Ok(count),
    }
}

// A node, then what is below it, left first: what `find` reports of each is placed. The count with it. It calls itself on the left of two parts
// alone, and goes on to the last part, so that a chain of parts takes no stack.
fn walk<F: Fn(usize) -> Option<u64>>(
    image: Image,
    find: &F,
    mut n: usize,
    table: &mut [u8],
    mut count: usize,
) -> Result<usize, Refusal>
    requires at { IsNode image.bytes.now n }
    requires callable { (m : ℕ) → IsNode image.bytes.now m → F.pre find.now m }
    ensures { (due : ℕ → List ℕ) → Finds (F.post find.now) (length (grammar image.entry.bytes.now).nodes) due → Leaves result table.new (place_all (held table.old count) (flat due (top_down (grammar image.entry.bytes.now) n))) }
{
    loop {
        count = note(find, n, table, count)?;
        match parts_down(image, n) {
            Parts::Leaf => return Ok(count),
            Parts::One(part) => n = part,
            Parts::Two(left, right) => {
                count = walk(image, find, left, table, count)?;
                n = right;
            }
        }
    }
}

// All rules in order. The count with the reports that `find` gives.
fn walk_rules<F: Fn(usize) -> Option<u64>>(
    image: Image,
    find: &F,
    table: &mut [u8],
    mut count: usize,
) -> Result<usize, Refusal>
    requires callable { (m : ℕ) → IsNode image.bytes.now m → F.pre find.now m }
    ensures { (due : ℕ → List ℕ) → Finds (F.post find.now) (length (grammar image.entry.bytes.now).nodes) due → Placed (flat due (nodes_down (grammar image.entry.bytes.now))) table.old count table.new result }
{
    for i in 0..image.rule_count() {
        count = walk(image, find, image.root_at(i), table, count)?;
    }
    Ok(count)
}

// Reasons 1 and 2. The count with their reports.
pub fn validate_repetition(image: Image, table: &mut [u8], count: usize) -> Result<usize, Refusal>
    ensures { Placed (validate_repetition (grammar image.entry.bytes.now)) table.old count table.new result }
{
    walk_rules(image, &|n| repetition_at(image, n), table, count)
}

// Reason 4. The count with its reports.
pub fn validate_choices(image: Image, table: &mut [u8], count: usize) -> Result<usize, Refusal>
    ensures { Placed (validate_choices (grammar image.entry.bytes.now)) table.old count table.new result }
{
    walk_rules(image, &|n| choice_at(image, n), table, count)
}
