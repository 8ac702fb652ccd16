// The starts of one run, or of one search for a loop: packed states in an array of fixed length, and a count.
#![tactic(auto)]

ghost use Rattle.std.specs.Prelude.{◌≡◌, ◌<◌};
ghost use Rattle.stack.specs.State.{max_len};
ghost use Rattle.stack.specs.Number.{state_at, NumberOfState};
ghost use Rattle.asking.specs.Runs.{place, any_same_top};
ghost use Rattle.starts.specs.Promise.{starts_of, Numbered, Begun, More, place_of, At};

// The states with which copies began, the oldest first. A run has at most 64; a search looks at 64 and enters one more.
// Document 01 names this form, a struct by value with the states and a count: memory is fixed, there is no heap.
#[derive(Clone, Copy, Debug, PartialEq, Eq)]
pub struct Starts {
    pub states: [u16; 65],
    pub count: usize,
}

pub fn none() -> Starts
    ensures { Begun result }
{
    Starts {
        states: [0; 65],
        count: 0,
    }
}

// One start more.
pub fn add(mut run: Starts, state: u16) -> Starts
    requires { Numbered run × (run.count < 65) × NumberOfState max_len state }
    ensures { More run state result }
{
    run.states[run.count] = state;
    run.count += 1;
    run
}

// How many places back from the newest start a state stands, if it does.
pub fn find(run: Starts, state: u16) -> Option<usize>
    requires { Numbered run × NumberOfState max_len state }
    ensures { place_of result ≡ place (state_at state) (starts_of run) }
{
    run.states[..run.count]
        .iter()
        .rev()
        .position(|&there| there == state)
}

// The start that stands so many places back.
pub fn at(run: Starts, back: usize) -> u16
    requires { Numbered run × (back < run.count) }
    ensures { At run back result }
{
    run.states[run.count - 1 - back]
}

// Whether a start has the same tracked entries as a state: the lower 12 bits of its number.
pub fn any_same_top(run: Starts, state: u16) -> bool
    requires { Numbered run × NumberOfState max_len state }
    ensures { result ≡ any_same_top (state_at state) (starts_of run) }
{
    run.states[..run.count]
        .iter()
        .any(|&there| there % 4096 == state % 4096)
}
