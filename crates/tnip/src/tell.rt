// Results on standard output: in words, in words with colours, or as numbers.
ghost use Rattle.image.specs.Promise.{IsNode};

use crate::lend::{Checked, Lent, Places, Verdict};
use image::Image;
use image::expr::{Expr, numbers_in};
use image::refusal::Refusal;
use std::io;
use tables::report::word_at;
use words::line::{shown, trimmed};
use words::owner::owner;
use words::picture::{entries, picture};
use words::texts::{self, below, kind, reason, why};

const PLAIN: &str = "\x1b[0m";

const BOLD: &str = "\x1b[1m";

const RED: &str = "\x1b[31m";

const GREEN: &str = "\x1b[32m";

const YELLOW: &str = "\x1b[33m";

// The reason whose reports have a state.
const STACK_LOOP: u64 = 3;

// How results are told.
#[derive(Clone, Copy, PartialEq, Eq)]
pub enum Way {
    Text,
    Color,
    Raw,
}

impl From<u8> for Way {
    fn from(letter: u8) -> Way {
        match letter {
            b'c' => Way::Color,
            b'r' => Way::Raw,
            _ => Way::Text,
        }
    }
}

// A report: a node, the reason, and of reason 3 a state of the stack.
#[derive(Clone, Copy)]
struct Report {
    node: usize,
    state: u64,
    reason: u64,
}

// The number is node + 65536 × state + 2^32 × reason.
impl From<u64> for Report {
    fn from(number: u64) -> Report {
        Report {
            node: (number % 65536) as usize,
            state: number / 65536 % 65536,
            reason: number / 4294967296,
        }
    }
}

// Tells results on standard output in one way.
#[derive(Drop)]
pub struct Teller<'a, P> {
    pub rt: &'a P,
    pub way: Way,
}

impl<P: Print> Teller<'_, P> {
    // Tells what the check says of the image of a file.
    pub(crate) fn tell(&self, path: &[u8], verdict: Verdict, lent: &Lent) -> io::Result<()> {
        if self.way == Way::Raw {
            return self.tell_raw(verdict, lent.reports);
        }
        self.rt.write_all(path)?;
        print!(self.rt; ": ")?;
        match verdict {
            Ok(checked) => self.tell_accepted(checked, lent.reports),
            Err(refusal) => self.tell_refused(refusal, lent.places),
        }
    }

    // The result as numbers.
    fn tell_raw(&self, verdict: Verdict, reports: &[u8]) -> io::Result<()> {
        let (k, count) = match verdict {
            Ok(checked) => (0, checked.count),
            Err(refusal) => (refusal.number(), 0),
        };
        print!(self.rt; "{k} {count}")?;
        for i in 0..count.min(reports.len() / 8) {
            print!(self.rt; " {}", word_at(reports, i))?;
        }
        println!(self.rt)
    }

    // What changes a terminal's colour, in the way that has colours.
    fn paint(&self, code: &'static str) -> &'static str {
        if self.way == Way::Color { code } else { "" }
    }

    // The verdict on an accepted image, with its reports.
    fn tell_accepted(&self, checked: Checked, reports: &[u8]) -> io::Result<()> {
        let plain = self.paint(PLAIN);
        if checked.count == 0 {
            return println!(self.rt; "{}accepted{plain}, no report", self.paint(GREEN));
        }
        let noun = if checked.count == 1 {
            "report"
        } else {
            "reports"
        };
        println!(self.rt;
            "{}accepted{plain}, {} {noun}",
            self.paint(YELLOW),
            checked.count
        )?;
        self.tell_reports(checked, reports)?;
        println!(self.rt)
    }

    // So many reports of the table in words.
    fn tell_reports(&self, checked: Checked, reports: &[u8]) -> io::Result<()> {
        for i in 0..checked.count.min(reports.len() / 8) {
            self.tell_report(checked.image, i + 1, Report::from(word_at(reports, i)))?;
        }
        Ok(())
    }

    // One report in words, with its number in the list.
    fn tell_report(&self, image: Image, i: usize, report: Report) -> io::Result<()> {
        let k = report.reason;
        println!(self.rt;
            "\n  {i}  {}{}{} (reason {k})",
            self.paint(BOLD),
            reason(k),
            self.paint(PLAIN)
        )?;
        if report.node < image.node_count() {
            self.tell_node(image, report.node)?;
        }
        println!(self.rt; "     why     {}", why(k))?;
        if k == STACK_LOOP {
            self.tell_state(report.state)?;
        }
        Ok(())
    }

    // A node: its rule, its kind and its span.
    fn tell_node(&self, image: Image, node: usize) -> io::Result<()>
        requires { IsNode image.bytes.now node }
    {
        self.tell_rule(image, node)?;
        let e = image.expr_at(node);
        print!(self.rt; "     node    {node}, {}", kind(numbers_in(e).kind))?;
        if let Expr::Ident(at, len) = e {
            print!(self.rt; " ")?;
            self.tell_name(image.text_of(at, len))?;
        }
        let span = image.span_at(node);
        println!(self.rt; "\n     span    {} to {}", span.start, span.end)
    }

    // The rule that owns a node.
    fn tell_rule(&self, image: Image, node: usize) -> io::Result<()>
        requires { IsNode image.bytes.now node }
    {
        print!(self.rt; "     rule    ")?;
        let rule = owner(image, node);
        if rule < image.rule_count() {
            self.tell_name(image.name_of(rule))?;
        }
        println!(self.rt)
    }

    // A name of an image as it can be shown, cut off where it is long.
    fn tell_name(&self, name: &[u8]) -> io::Result<()> {
        self.rt.write_all(trimmed(&shown(name)))
    }

    // A state: what is below, and the entries above that from the bottom to the top.
    fn tell_state(&self, state: u64) -> io::Result<()> {
        print!(self.rt; "     below   {}\n     stack   ", below(state / 4096))?;
        if entries(state) == 0 {
            println!(self.rt; "no entry above that")
        } else {
            self.rt.write_all(trimmed(&picture(state)))?;
            println!(self.rt; " <- top")
        }
    }

    // The verdict on a refused image, or where a limit is met, and what to try where a table has no free place.
    fn tell_refused(&self, refusal: Refusal, lent: Places) -> io::Result<()> {
        let k = refusal.number();
        println!(self.rt;
            "{}refused{} ({k})\n  {}",
            self.paint(RED),
            self.paint(PLAIN),
            texts::refusal(u64::from(k))
        )?;
        match lent.after(refusal) {
            None => Ok(()),
            Some(tried) if tried == lent => {
                println!(self.rt; "  This command has no larger table to lend.")
            }
            Some(tried) => {
                println!(self.rt;
                    "  Try --places {} {} {}",
                    tried.outcomes, tried.walked, tried.reports
                )
            }
        }
    }
}
