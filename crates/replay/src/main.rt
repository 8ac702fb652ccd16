// Replays recorded answers: asks the check about each case of standard input, and compares the result and every byte of the tables.
// The form of the input is in oracle/README.md, "The recorded corpus". Each table is lent with as many places as the case has, most with
// spare bytes behind them, and with no byte zero. Standard output gets a line for each of the first ten cases that differ, then the counts.
#![tactic(auto)]

ghost use Rattle.std.specs.Prelude.{◌≡◌, IfOk, vec_len};

use std::alloc::{AllocError, Global};
use std::fmt::Display;
use std::io::{ErrorKind, Read};
use std::{fmt, io, iter};
use thatchnip::thatchnip_check;

// An image or a table of so many bytes or more is malformed.
const IMAGE_END: usize = 65536;

const OUTCOMES_END: usize = 1048576;

const WALKED_END: usize = 65536;

const REPORTS_END: usize = 65536;
// The refusals, and 0 for none.
const REFUSALS: usize = 14;
// The reasons, and 0 for none.
const REASONS: usize = 6;
// So many cases that differ are told.
const TOLD: u64 = 10;

// Why the input is not replayed to its end; most faults are those of a case, and have its number.
#[derive(Drop)]
enum Fault {
    Failed(io::Error),
    NoTotal,
    EndsBefore(u32),
    LongImage(u32),
    EndsInImage(u32),
    EndsAfterImage(u32),
    TooManyPlaces(u32),
    NoSuchAnswer(u32),
    EndsInReports(u32),
    GoesOn,
}

impl From<io::Error> for Fault {
    fn from(error: io::Error) -> Fault {
        Fault::Failed(error)
    }
}

impl From<AllocError> for Fault {
    fn from(error: AllocError) -> Fault {
        Fault::Failed(io::Error::from(error))
    }
}

impl Display for Fault {
    fn fmt<W: fmt::Write>(&self, f: &mut fmt::Formatter<W>) -> fmt::Result {
        match self {
            Fault::Failed(error) => write!(f, "{error}"),
            Fault::NoTotal => write!(f, "the input ends before its number of cases"),
            Fault::EndsBefore(case) => write!(f, "case {case}: the input ends before it"),
            Fault::LongImage(case) => write!(f, "case {case}: malformed, too long an image"),
            Fault::EndsInImage(case) => write!(f, "case {case}: the input ends in its image"),
            Fault::EndsAfterImage(case) => write!(f, "case {case}: the input ends after its image"),
            Fault::TooManyPlaces(case) => write!(f, "case {case}: malformed, too many places"),
            Fault::NoSuchAnswer(case) => write!(f, "case {case}: malformed, no such answer"),
            Fault::EndsInReports(case) => write!(f, "case {case}: the input ends in its reports"),
            Fault::GoesOn => write!(f, "the input goes on after its last case"),
        }
    }
}

// The number that the check gives, in its two parts.
#[derive(Clone, Copy, PartialEq, Eq)]
struct Answer {
    refusal: u32,
    count: u32,
}

impl From<u64> for Answer {
    fn from(number: u64) -> Answer {
        Answer {
            refusal: (number >> 32) as u32,
            count: (number & 0xffff_ffff) as u32,
        }
    }
}

impl Display for Answer {
    fn fmt<W: fmt::Write>(&self, f: &mut fmt::Formatter<W>) -> fmt::Result {
        write!(f, "refusal {} and count {}", self.refusal, self.count)
    }
}

// What a case has between its image and its reports: the places of the tables, and the recorded answer.
#[derive(Clone, Copy)]
struct Header {
    outcomes: u32,
    walked: u32,
    reports: u32,
    recorded: Answer,
}

// The bytes of the three tables.
#[derive(Drop)]
struct Tables {
    outcomes: Vec<u8>,
    walked: Vec<u8>,
    reports: Vec<u8>,
}

// A case of the input: its number, its image, the tables to lend, and what is recorded: the answer and the bytes of the reports.
#[derive(Drop)]
struct Case {
    number: u32,
    image: Vec<u8>,
    tables: Tables,
    recorded: Answer,
    reported: Vec<u8>,
}

// The first place at which a table is not these bytes and then zeros.
fn other(table: &[u8], bytes: &[u8]) -> Option<usize> {
    let wanted = bytes.iter().chain(iter::repeat(&0));
    table.iter().zip(wanted).position(|(a, b)| a != b)
}

impl Case {
    // The check's own answer.
    fn ask(&mut self) -> Answer {
        Answer::from(thatchnip_check(
            &self.image,
            &mut self.tables.outcomes,
            &mut self.tables.walked,
            &mut self.tables.reports,
        ))
    }

    // The tables by name, each with the bytes that it is to begin with; zeros are to follow.
    fn compared(&self) -> [(&str, &[u8], &[u8]); 3] {
        [
            ("outcome", &self.tables.outcomes, b""),
            ("walked", &self.tables.walked, b""),
            ("report", &self.tables.reports, &self.reported),
        ]
    }

    // Whether the answer is the recorded one, the work tables are zero and the report table has the recorded reports and then zeros.
    fn agrees(&self, answer: Answer) -> bool {
        answer == self.recorded
            && self
                .compared()
                .iter()
                .all(|(_, table, bytes)| other(table, bytes).is_none())
    }
}

// How an answer differs from the case's.
#[derive(Drop)]
struct Difference<'a> {
    case: &'a Case,
    answer: Answer,
}

impl<'a> Display for Difference<'a> {
    fn fmt<W: fmt::Write>(&self, f: &mut fmt::Formatter<W>) -> fmt::Result {
        let case = self.case;
        write!(
            f,
            "case {}: {}, recorded {}",
            case.number, self.answer, case.recorded
        )?;
        for (name, table, bytes) in case.compared() {
            if let Some(at) = other(table, bytes) {
                write!(f, "; {name} table differs at byte {at}")?;
            }
        }
        Ok(())
    }
}

// The counts.
#[derive(Default, Drop)]
struct Tally {
    agree: u64,
    differ: u64,
    // Of the cases that agree, those of each refusal.
    refusals: [u64; REFUSALS],
    // Of their reports, those of each reason.
    reasons: [u64; REASONS],
}

// Adds one to the count at a place.
fn bump(counts: &mut [u64], i: usize) {
    if let Some(count) = counts.get_mut(i) {
        *count = count.wrapping_add(1);
    }
}

impl Tally {
    // Counts a case that agrees, and its reports.
    fn count(&mut self, case: &Case) {
        self.agree = self.agree.wrapping_add(1);
        bump(&mut self.refusals, case.recorded.refusal as usize);
        let (reports, _) = case.reported.as_chunks::<8>();
        for report in reports {
            bump(&mut self.reasons, report[4] as usize);
        }
    }
}

impl Display for Tally {
    fn fmt<W: fmt::Write>(&self, f: &mut fmt::Formatter<W>) -> fmt::Result {
        let cases = self.agree.wrapping_add(self.differ);
        writeln!(f, "{cases} cases, {} agree", self.agree)?;
        for (refusal, count) in self.refusals.iter().enumerate() {
            writeln!(f, "refusal {refusal}: {count}")?;
        }
        for (reason, count) in self.reasons.iter().enumerate().skip(1) {
            writeln!(f, "reports of reason {reason}: {count}")?;
        }
        Ok(())
    }
}

// Fills the bytes from the input. Where it ends first, the fault is `ended`.
fn fill(from: &mut impl Read, bytes: &mut [u8], ended: Fault) -> Result<(), Fault> {
    from.read_exact(bytes).map_err(|error| {
        if error.kind() == ErrorKind::UnexpectedEof {
            ended
        } else {
            Fault::Failed(error)
        }
    })
}

// The next number of the input.
fn next_number(from: &mut impl Read, ended: Fault) -> Result<u32, Fault> {
    let mut bytes = [0u8; 4];
    fill(from, &mut bytes, ended)?;
    Ok(u32::from_le_bytes(bytes))
}

// The next n bytes of the input.
fn next_bytes(alloc: Global, from: &mut impl Read, n: usize, ended: Fault) -> Result<Vec<u8>, Fault>
    ensures { IfOk result (λ v. vec_len v ≡ n) }
{
    let mut bytes = vec![in alloc; 0u8; n]?;
    fill(from, &mut bytes, ended)?;
    Ok(bytes)
}

// A table of n bytes, none of them zero.
fn soiled(alloc: Global, n: usize) -> Result<Vec<u8>, AllocError>
    ensures { IfOk result (λ v. vec_len v ≡ n) }
{
    let mut table = vec![in alloc; 0u8; n]?;
    for (i, byte) in table.iter_mut().enumerate() {
        *byte = (i % 255) as u8 + 1;
    }
    Ok(table)
}

// The image of the next case.
fn next_image(alloc: Global, from: &mut impl Read, case: u32) -> Result<Vec<u8>, Fault> {
    let length = next_number(from, Fault::EndsBefore(case))? as usize;
    if IMAGE_END <= length {
        return Err(Fault::LongImage(case));
    }
    next_bytes(alloc, from, length, Fault::EndsInImage(case))
}

// The numbers that follow the image of a case.
fn next_header(from: &mut impl Read, case: u32) -> Result<Header, Fault> {
    let mut next = || next_number(from, Fault::EndsAfterImage(case));
    Ok(Header {
        outcomes: next()?,
        walked: next()?,
        reports: next()?,
        recorded: Answer {
            refusal: next()?,
            count: next()?,
        },
    })
}

// The next case of the input.
fn next_case(alloc: Global, from: &mut impl Read, number: u32) -> Result<Case, Fault> {
    let image = next_image(alloc, from, number)?;
    let header = next_header(from, number)?;
    let case = number as usize;
    let outcomes = header.outcomes as usize * 8 + case % 8;
    let walked = header.walked as usize * 4 + case % 4;
    let reports = header.reports as usize * 8 + case / 8 % 8;
    if OUTCOMES_END <= outcomes || WALKED_END <= walked || REPORTS_END <= reports {
        return Err(Fault::TooManyPlaces(number));
    }
    let recorded = header.recorded;
    let length = recorded.count as usize * 8;
    if REFUSALS <= recorded.refusal as usize || reports < length {
        return Err(Fault::NoSuchAnswer(number));
    }
    let tables = Tables {
        outcomes: soiled(alloc, outcomes)?,
        walked: soiled(alloc, walked)?,
        reports: soiled(alloc, reports)?,
    };
    let reported = next_bytes(alloc, from, length, Fault::EndsInReports(number))?;
    Ok(Case {
        number,
        image,
        tables,
        recorded,
        reported,
    })
}

// Asks the check about a case and compares.
fn hold(rt: &impl Print, mut case: Case, tally: &mut Tally) -> io::Result<()> {
    let answer = case.ask();
    if case.agrees(answer) {
        tally.count(&case);
        return Ok(());
    }
    if tally.differ < TOLD {
        rt.println(Difference {
            case: &case,
            answer,
        })?;
    }
    tally.differ = tally.differ.wrapping_add(1);
    Ok(())
}

// Replays the whole input.
fn replay(rt: &HostRuntime, from: &mut impl Read, tally: &mut Tally) -> Result<(), Fault> {
    let total = next_number(from, Fault::NoTotal)?;
    for number in 1..=total {
        hold(rt, next_case(rt.alloc(), from, number)?, tally)?;
    }
    if from.read(&mut [0])? != 0 {
        return Err(Fault::GoesOn);
    }
    Ok(())
}

fn main(rt: HostRuntime) -> io::Result<()> {
    let mut tally = Tally::default();
    let verdict = match replay(&rt, &mut rt.stdin(), &mut tally) {
        Ok(()) if tally.differ == 0 => "all agree",
        Ok(()) => "not all agree",
        Err(Fault::Failed(error)) => return Err(error),
        Err(fault) => {
            println!(rt; "{fault}")?;
            "not all read"
        }
    };
    println!(rt; "{tally}{verdict}")
}
