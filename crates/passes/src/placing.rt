// Reports with state 0, and the places that they take in the report table.
ghost use Rattle.std.specs.Prelude.{◌≡◌, ◌<◌};
ghost use Rattle.tables.specs.Report.{report};
ghost use Rattle.passes.specs.Promise.{held, placed, Leaves};
ghost use Rattle.passes.specs.Reasons.{reason_number};

use image::refusal::Refusal;
use tables::report::set_word;

// What a report of these passes says of its node, by the numbers of document 01; 3, the stack loop, is the stack pass's.
#[derive(Clone, Copy, Debug, PartialEq, Eq)]
pub enum Reason {
    RepetitionCannotFail = 1,
    NotProgressing = 2,
    ChoiceUnreachable = 4,
    LeftRecursion = 5,
}

// The report of a node.
pub fn report_of(n: usize, reason: Reason) -> u64
    requires { n < 65536 }
    ensures { result ≡ report n 0 (reason_number reason) }
{
    n as u64 + 4294967296 * (reason as u64)
}

// Puts a report at the first free place. The count with it.
pub fn put(table: &mut [u8], count: usize, x: u64) -> Result<usize, Refusal>
    ensures { Leaves result table.new (placed (held table.old count) x) }
{
    if table.len() / 8 <= count {
        return Err(Refusal::ReportsFull);
    }
    set_word(table, count, x);
    Ok(count + 1)
}
