// Outcomes: what asking about a node from a state answers, and the outcome of each construct from those of its parts (document
// 01, "Outcomes"). Each promise is an equation with a definition of the machine.
#![tactic(auto)]

ghost use Rattle.std.specs.Prelude.{◌≡◌};
ghost use Rattle.stack.specs.State.{max_len, popped_one};
ghost use Rattle.stack.specs.Promise.{state_of, WellFormed};
ghost use Rattle.machine.specs.Outcome.{unknown, succeeds, fails, either, never, joined, failed, still, exact, of_peek_all, of_pop_all, of_top, of_drop, of_pos_pred, of_neg_pred, of_seq, of_choice, of_opt, of_push, of_push_literal};
ghost use Rattle.outcomes.specs.Promise.{maybe_of, outcome_of, FormedMaybe, Formed, IsMaybe, IsOutcome};

use stack::AbsStack;

pub mod word;

// A state, or nothing: that outcome cannot happen.
pub type Maybe = Option<AbsStack>;

// The state after a success, the state after a failure, and whether a success consumed nothing.
// Clauses ask for `Formed` states and the struct has no invariant, since `still` answers for ill-formed ones too.
#[derive(Clone, Copy, Debug, PartialEq, Eq)]
pub struct Outcome {
    pub ok: Maybe,
    pub err: Maybe,
    pub empty: bool,
}

// Nothing is known: the answer of a pair that is still open.
pub fn unknown() -> Outcome
    ensures { IsOutcome unknown result }
{
    either(AbsStack::unknown())
}

// Surely succeeds, consumes nothing and leaves `s`.
pub fn succeeds(s: AbsStack) -> Outcome
    requires { WellFormed max_len s }
    ensures { IsOutcome (succeeds (state_of s)) result }
{
    Outcome {
        ok: Some(s),
        err: None,
        empty: true,
    }
}

// Surely fails and leaves `s`.
pub fn fails(s: AbsStack) -> Outcome
    requires { WellFormed max_len s }
    ensures { IsOutcome (fails (state_of s)) result }
{
    Outcome {
        ok: None,
        err: Some(s),
        empty: false,
    }
}

// May succeed, consuming or not, or fail, and leaves `s`.
pub fn either(s: AbsStack) -> Outcome
    requires { WellFormed max_len s }
    ensures { IsOutcome (either (state_of s)) result }
{
    Outcome {
        ok: Some(s),
        err: Some(s),
        empty: false,
    }
}

// Neither succeeds nor fails.
pub fn never() -> Outcome
    ensures { IsOutcome never result }
{
    Outcome {
        ok: None,
        err: None,
        empty: true,
    }
}

// What is known where either may be.
pub fn joined(a: Maybe, b: Maybe) -> Maybe
    requires { FormedMaybe a × FormedMaybe b }
    ensures { IsMaybe (joined (maybe_of a) (maybe_of b)) result }
{
    match (a, b) {
        (Some(x), Some(y)) => Some(x.join(y)),
        _ => a.or(b),
    }
}

// The stack after a failed side, optional or copy that began with `s`: kept, or `s` again.
pub fn failed(err: Maybe, s: AbsStack) -> Maybe
    requires { FormedMaybe err × WellFormed max_len s }
    ensures { IsMaybe (failed (maybe_of err) (state_of s)) result }
{
    err.map(|e| e.join(s))
}

// Where it succeeds it consumes nothing.
pub fn still(o: Outcome) -> bool
    ensures { result ≡ still (outcome_of o) }
{
    o.ok.is_none() || o.empty
}

// The state after, where it surely succeeds and consumes nothing.
pub fn exact(o: Outcome) -> Maybe
    requires { Formed o }
    ensures { IsMaybe (exact (outcome_of o)) result }
{
    if o.err.is_none() && o.empty {
        o.ok
    } else {
        None
    }
}

// PEEK_ALL: nothing to match where all is blank.
pub fn of_peek_all(s: AbsStack) -> Outcome
    requires { WellFormed max_len s }
    ensures { IsOutcome (of_peek_all (state_of s)) result }
{
    let blank = s.all_blank();
    if blank { succeeds(s) } else { either(s) }
}

// POP_ALL: failed, it has removed some of the entries.
pub fn of_pop_all(s: AbsStack) -> Outcome
    requires { WellFormed max_len s }
    ensures { IsOutcome (of_pop_all (state_of s)) result }
{
    let emptied = s.popped_all();
    if s.all_blank() {
        succeeds(emptied)
    } else {
        Outcome {
            ok: Some(emptied),
            err: Some(AbsStack::unknown()),
            empty: false,
        }
    }
}

// PEEK and POP, which leave `after`: on an empty stack they stop.
fn of_top(s: AbsStack, after: AbsStack) -> Outcome
    requires { WellFormed max_len s × WellFormed max_len after }
    ensures { IsOutcome (of_top (state_of s) (state_of after)) result }
{
    if s.is_empty() {
        never()
    } else if s.top_blank() {
        succeeds(after)
    } else {
        either(after)
    }
}

pub fn of_peek(s: AbsStack) -> Outcome
    requires { WellFormed max_len s }
    ensures { IsOutcome (of_top (state_of s) (state_of s)) result }
{
    of_top(s, s)
}

// POP has removed the entry, whether it matched or failed.
pub fn of_pop(s: AbsStack) -> Outcome
    requires { WellFormed max_len s }
    ensures { IsOutcome (of_top (state_of s) (popped_one (state_of s))) result }
{
    of_top(s, s.popped_one())
}

// DROP fails on an empty stack.
pub fn of_drop(s: AbsStack) -> Outcome
    requires { WellFormed max_len s }
    ensures { IsOutcome (of_drop (state_of s)) result }
{
    let dropped = s.popped_one();
    if s.is_empty() {
        fails(s)
    } else if s.non_empty() {
        succeeds(dropped)
    } else {
        Outcome {
            ok: Some(dropped),
            err: Some(s),
            empty: true,
        }
    }
}

// Predicates restore the stack.
pub fn of_pos_pred(s: AbsStack, o: Outcome) -> Outcome
    requires { WellFormed max_len s }
    ensures { IsOutcome (of_pos_pred (state_of s) (outcome_of o)) result }
{
    Outcome {
        ok: o.ok.and(Some(s)),
        err: o.err.and(Some(s)),
        empty: true,
    }
}

pub fn of_neg_pred(s: AbsStack, o: Outcome) -> Outcome
    requires { WellFormed max_len s }
    ensures { IsOutcome (of_neg_pred (state_of s) (outcome_of o)) result }
{
    Outcome {
        ok: o.err.and(Some(s)),
        err: o.ok.and(Some(s)),
        empty: true,
    }
}

// A failed Seq restores the stack; under skips it is never empty.
pub fn of_seq(skips: bool, s: AbsStack, l: Outcome, r: Outcome) -> Outcome
    requires { WellFormed max_len s × Formed r }
    ensures { IsOutcome (of_seq skips (state_of s) (outcome_of l) (outcome_of r)) result }
{
    let may_fail = l.err.is_some() || r.err.is_some();
    Outcome {
        ok: r.ok,
        err: may_fail.then_some(s),
        empty: l.empty && r.empty && !skips,
    }
}

// A choice that began with `s`: its right side was asked where the left one fails.
pub fn of_choice(s: AbsStack, l: Outcome, r: Outcome) -> Outcome
    requires { WellFormed max_len s × Formed l × Formed r }
    ensures { IsOutcome (of_choice (state_of s) (outcome_of l) (outcome_of r)) result }
{
    Outcome {
        ok: joined(l.ok, r.ok),
        err: failed(r.err, s),
        empty: still(l) && still(r),
    }
}

pub fn of_opt(s: AbsStack, o: Outcome) -> Outcome
    requires { WellFormed max_len s × Formed o }
    ensures { IsOutcome (of_opt (state_of s) (outcome_of o)) result }
{
    Outcome {
        ok: joined(o.ok, failed(o.err, s)),
        err: None,
        empty: still(o),
    }
}

// Pushes what it matched: blank where it surely matched nothing.
pub fn of_push(o: Outcome) -> Outcome
    requires { Formed o }
    ensures { IsOutcome (of_push max_len (outcome_of o)) result }
{
    Outcome {
        ok: o.ok.map(|s| s.push(o.empty)),
        ..o
    }
}

// Pushes a literal of `len` bytes.
pub fn of_push_literal(len: usize, s: AbsStack) -> Outcome
    requires { WellFormed max_len s }
    ensures { IsOutcome (of_push_literal max_len len (state_of s)) result }
{
    succeeds(s.push(len == 0))
}
