// What the stack pass does without asking: what the outcome of one copy makes of a run, of a search for a loop, and of a report; and the
// key of a question.
#![tactic(auto)]

ghost use Rattle.std.specs.Prelude.{◌≡◌, true, cond, ◌<◌, eqb, length, get_or, set};
ghost use Rattle.std.proofs.Math.Option.{none, some};
ghost use Rattle.stack.specs.State.{max_len};
ghost use Rattle.stack.specs.Promise.{state_of, WellFormed};
ghost use Rattle.image.specs.Promise.{IsNode};
ghost use Rattle.asking.specs.Runs.{next, ends};
ghost use Rattle.outcomes.specs.Promise.{maybe_of, outcome_of, FormedMaybe, Formed, IsMaybe};
ghost use Rattle.starts.specs.Promise.{Numbered};
ghost use Rattle.standing.specs.Stands.{key_of};
ghost use Rattle.turns.specs.Promise.{Ended, HuntedOn, Reported};

use image::Image;
use image::refusal::Refusal;
use outcomes::{Maybe, Outcome};
use reading::kinds::held_back;
use stack::AbsStack;
use stack::number::{pack, unpack};
use starts::Starts;

// How a run ended: the state after it, whether all its copies consumed nothing, and whether a required copy can fail.
#[derive(Clone, Copy)]
pub struct Ran {
    pub end: Maybe,
    pub empty: bool,
    pub fails: bool,
}

// A failed required copy restores the stack to the repetition's start.
pub fn restored(fails: bool, s: AbsStack) -> Maybe
    requires { WellFormed max_len s }
    ensures { IsMaybe (cond fails (some (state_of s)) none) result }
{
    fails.then_some(s)
}

// A required copy goes on from its success, an optional one from its failure too.
pub fn next(required: bool, at: AbsStack, o: Outcome) -> Maybe
    requires { WellFormed max_len at × Formed o }
    ensures { IsMaybe (next required (state_of at) (outcome_of o)) result }
{
    if required {
        o.ok
    } else {
        outcomes::of_opt(at, o).ok
    }
}

// The states a greedy run can end with, with those of one more copy.
pub fn ends(first: bool, at: AbsStack, err: Maybe, ok: Maybe) -> Maybe
    requires { WellFormed max_len at × FormedMaybe err × FormedMaybe ok }
    ensures { IsMaybe (ends first (state_of at) (maybe_of err) (maybe_of ok)) result }
{
    match err {
        None => ok,
        Some(_) => outcomes::joined(
            ok,
            outcomes::joined(outcomes::failed(err, at), restored(!first, at)),
        ),
    }
}

// A start has come again, i places back: the state after all the copies left is read off the period.
pub fn ended(run: Starts, i: usize, left: usize, empty: bool, fails: bool) -> Ran
    requires { Numbered run × (i < run.count) }
    ensures { Ended run i left empty fails result }
{
    let end = unpack(starts::at(run, i - left % (i + 1)));
    Ran {
        end: Some(end),
        empty,
        fails,
    }
}

// What is past after a turn that succeeded and consumed nothing: none where a start has come round again, which is a loop; a changed
// base clears it.
pub fn hunt_on(seen: Starts, cur: AbsStack, out: AbsStack) -> Option<Starts>
    requires { Numbered seen × (seen.count < 65) × WellFormed max_len cur × WellFormed max_len out }
    ensures { HuntedOn seen cur out result }
{
    if !out.intact {
        return Some(starts::none());
    }
    let all = starts::add(seen, pack(cur));
    if starts::any_same_top(all, pack(out)) {
        return None;
    }
    Some(all)
}

// Reports a repetition and the state it loops from: held back by its part's bits, once a node, refused where no place is free.
// The reports so far come back.
pub fn report(
    image: Image,
    table: &mut [u8],
    marks: &mut [u8],
    count: usize,
    n: usize,
    part: usize,
    s: AbsStack,
) -> Result<usize, Refusal>
    requires { IsNode image.bytes.now part × (n < 2048) × (length marks.old ≡ 2048) × WellFormed max_len s }
    ensures { Reported image.entry.bytes.now table.old marks.old count n part s result table.new marks.new }
{
    let held = held_back(image, part);
    if held || marks[n] == 1 {
        return Ok(count);
    }
    if table.len() / 8 <= count {
        return Err(Refusal::ReportsFull);
    }
    tables::report::set_word(
        table,
        count,
        (n as u64) + 65536 * (pack(s) as u64) + 12884901888,
    );
    marks[n] = 1;
    Ok(count + 1)
}

// The key of a node and a state.
pub fn key(n: usize, s: AbsStack) -> u64
    requires { (n < 2048) × WellFormed max_len s }
    ensures { result ≡ key_of n (state_of s) }
{
    (n as u64) * 32768 + (pack(s) as u64) + 1
}
