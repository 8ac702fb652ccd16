// The program behind `./thatchnip`: checks the node images that its arguments name, and says in words what is wrong with each grammar.
// Arguments: 1 where a status line is to end the output, else 3; text, color or raw; the places of the outcome, walked and report table; the files.
// The exit status is the worst status of the files, or 4 where a write failed. A file whose name is not UTF-8 is opened by a link to it, which
// has the number of its argument as its name, in the folder that THATCHNIP_LINKS names.
#![tactic(auto)]

ghost use Rattle.std.specs.Prelude.{◌≤◌};

mod file;
mod lend;
mod tell;

use file::{load, unread};
use lend::{Checked, Lent, Places, Verdict};
use std::env::{Env, FillError};
use std::io;
use std::process::ExitCode;
use tell::{Teller, Way};
use words::number::number;

// The exit status where a write failed.
const UNWRITTEN: u8 = 4;
// The system's number for a name that is too long.
const NAME_TOO_LONG: i32 = 36;
// More places than any table has: what a word that is no number asks for.
const NO_NUMBER: u64 = 4294967296;

// The status of a call, from the best to the worst: no report, a report, a refusal, a file that cannot be read.
#[derive(Clone, Copy, PartialEq, Eq, PartialOrd, Ord)]
enum Status {
    Sound,
    Reported,
    Refused,
    Unread,
}

impl From<Verdict<'_>> for Status {
    fn from(verdict: Verdict) -> Status {
        match verdict {
            Ok(Checked { count: 0, .. }) => Status::Sound,
            Ok(_) => Status::Reported,
            Err(_) => Status::Refused,
        }
    }
}

impl From<Status> for ExitCode {
    fn from(status: Status) -> ExitCode {
        ExitCode::from(status as u8)
    }
}

// Checks a file, tells the result, and answers the status.
fn check_file(
    to: &Teller<HostRuntime>,
    i: usize,
    path: &[u8],
    lent: &mut Lent,
) -> io::Result<Status> {
    let mut image = [0u8; 65536];
    match load(to.rt, i, path, &mut image) {
        Ok(n) => {
            let verdict = lent.check(&image[..n]);
            to.tell(path, verdict, lent)?;
            Ok(Status::from(verdict))
        }
        Err(error) => {
            unread(to.rt, path, &error)?;
            Ok(Status::Unread)
        }
    }
}

// Checks the file that an argument names. None where there is no such argument.
fn check_argument(
    to: &Teller<HostRuntime>,
    i: usize,
    lent: &mut Lent,
) -> io::Result<Option<Status>> {
    let mut path = [0u8; 4096];
    match to.rt.arg(i, &mut path) {
        Ok(n) => Ok(Some(check_file(to, i, &path[..n], lent)?)),
        Err(FillError::TooLong) => {
            let error = io::Error::from_raw_os_error(NAME_TOO_LONG);
            unread(to.rt, b"a path of more than 4095 bytes", &error)?;
            Ok(Some(Status::Unread))
        }
        Err(FillError::NotPresent) => Ok(None),
    }
}

// Checks the files that the arguments name, and answers the worst status.
fn check_arguments(to: &Teller<HostRuntime>, lent: &mut Lent) -> io::Result<Status> {
    let mut worst = Status::Sound;
    for i in 6..usize::MAX {
        match check_argument(to, i, lent)? {
            Some(status) => worst = worst.max(status),
            None => break,
        }
    }
    Ok(worst)
}

// The number that an argument has.
fn number_at(rt: &impl Env, i: usize) -> u64
    ensures { result ≤ 4294967296 }
{
    let mut text = [0u8; 16];
    match rt.arg(i, &mut text) {
        Ok(n) => number(&text[..n]).map_or(NO_NUMBER, u64::from),
        Err(_) => 0,
    }
}

// The way that an argument names by its first byte.
fn way_at(rt: &impl Env, i: usize) -> Way {
    let mut text = [0u8; 16];
    let _ = rt.arg(i, &mut text);
    Way::from(text[0])
}

// Checks all files with as many places of the tables as the arguments ask for.
fn check_with(
    rt: &HostRuntime,
    outcomes: &mut [u8; 2097152],
    walked: &mut [u8; 1048576],
    reports: &mut [u8; 65536],
) -> io::Result<Status> {
    let places = Places {
        outcomes: number_at(rt, 3),
        walked: number_at(rt, 4),
        reports: number_at(rt, 5),
    };
    let to = Teller {
        rt,
        way: way_at(rt, 2),
    };
    check_arguments(&to, &mut Lent::new(places, outcomes, walked, reports))
}

// Checks all files with the tables that this program has.
fn check_all(rt: &HostRuntime) -> io::Result<Status> {
    let mut outcomes = [0u8; 2097152];
    let mut walked = [0u8; 1048576];
    let mut reports = [0u8; 65536];
    check_with(rt, &mut outcomes, &mut walked, &mut reports)
}

// Checks all files, ends the output with the status line where that is asked for, and answers the status.
fn run(rt: &HostRuntime) -> io::Result<Status> {
    let status = check_all(rt)?;
    if number_at(rt, 1) != 3 {
        println!(rt; "status {}", status as u8)?;
    }
    Ok(status)
}

fn main(rt: HostRuntime) -> ExitCode {
    match run(&rt) {
        Ok(status) => ExitCode::from(status),
        Err(error) => {
            let _ = eprintln!(rt; "thatchnip: {error}");
            ExitCode::from(UNWRITTEN)
        }
    }
}
