// The outcome as one number of 32 bits, for the outcome table, and back, by shifts and masks. 0 is no answer's number.
ghost use Rattle.std.specs.Prelude.{◌≡◌};
ghost use Rattle.stack.specs.State.{max_len};
ghost use Rattle.outcomes.specs.Promise.{maybe_of, outcome_of, FormedMaybe, Formed, IsMaybe, IsOutcome};
ghost use Rattle.outcomes.specs.Word.{maybe_number, maybe_at, outcome_number, outcome_at, NumberOfMaybe, NumberOfOutcome};

use crate::{Maybe, Outcome};

#[tactic(auto, using(crate::proofs::Within::number_below))]
fn maybe_number(m: Maybe) -> u16
    requires { FormedMaybe m }
    ensures { result ≡ maybe_number (maybe_of m) }
{
    m.map_or(0, |s| stack::number::pack(s) + 1)
}

fn maybe_at(n: u16) -> Maybe
    requires { NumberOfMaybe max_len n }
    ensures { IsMaybe (maybe_at n) result }
{
    n.checked_sub(1).map(stack::number::unpack)
}

// 1 + 2 × empty + 4 × ok + 131,072 × err
pub fn encode(o: Outcome) -> u64
    requires { Formed o }
    ensures { result ≡ outcome_number (outcome_of o) }
{
    let ok = maybe_number(o.ok) as u64;
    let err = maybe_number(o.err) as u64;
    (err << 17) | (ok << 2) | ((o.empty as u64) << 1) | 1
}

// The outcome of a number that an outcome has.
pub fn decode(v: u64) -> Outcome
    requires { NumberOfOutcome max_len v }
    ensures { IsOutcome (outcome_at v) result }
{
    Outcome {
        ok: maybe_at(((v >> 2) & 32767) as u16),
        err: maybe_at(((v >> 17) & 32767) as u16),
        empty: (v >> 1) & 1 == 1,
    }
}
