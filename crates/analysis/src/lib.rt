// The stack pass: what a node comes to when it is entered with a state, remembered in lent tables, and the repetitions that loop.
// `visit`, `outcome`, `step`, `ident`, `rule` and `repeat` call each other; the number of open nodes left falls at each entry.
#![tactic(auto)]

ghost use Rattle.std.specs.Prelude.{◌≡◌, true, false, not, [], ◌+◌, ◌<◌, ◌≤◌, ltb, length, take};
ghost use Rattle.std.proofs.Math.Option.{none};
ghost use Rattle.stack.specs.State.{entry, max_len};
ghost use Rattle.stack.specs.Promise.{state_of, WellFormed};
ghost use Rattle.image.specs.Grammar.{grammar};
ghost use Rattle.machine.specs.Outcome.{failed};
ghost use Rattle.asking.specs.World.{and_then};
ghost use Rattle.asking.specs.Runs.{steps, greedy, loops_forever};
ghost use Rattle.asking.specs.Ask.{visit, step, step_kind, seq_rest, choice_rest, repeat_unbounded, repeat_bounded, searched, starts, search_steps};
ghost use Rattle.asking.specs.StackPass.{walk_rules};
ghost use Rattle.outcomes.specs.Promise.{IsOutcome};
ghost use Rattle.tables.specs.Places.{places, value_at};
ghost use Rattle.tables.specs.Probing.{Probed};
ghost use Rattle.tables.specs.Words.{words, Holds};
ghost use Rattle.reading.specs.Names.{name_is, NameBelow};
ghost use Rattle.turns.specs.Promise.{IsRan};
ghost use Rattle.analysis.specs.Promise.{StackPassed};

use image::refusal::Refusal;
use outcomes::Outcome;
use outcomes::word::{decode, encode};
use reading::kinds::{Kind, kind_at};
use reading::names::{Name, Names, StackName};
use reading::skips::{skips, skips_modify};
use stack::AbsStack;
use stack::number::pack;
use tables::{MapPlace, Probe, SetPlace};
use turns::Ran;

// What goes down with a question: how many nodes may still open, and whether repetitions met are checked and reported (document 01's
// "walking", a flag there too).
#[derive(Clone, Copy)]
struct Down {
    left: usize,
    walking: bool,
}

// One pass: the image with its names and whether it has skips; the lent tables, which nodes are reported, and the reports so far.
#[derive(Drop)]
struct Pass<'a> {
    names: Names<'a>,
    skips: bool,
    memo: &'a mut [u8],
    walked: &'a mut [u8],
    table: &'a mut [u8],
    marks: &'a mut [u8],
    count: usize,
}

impl<'a> Pass<'a> {
    ghost use Rattle.analysis.specs.Methods.{SamePass, Ready, Node, Answers, IsLoop, Done};

    // Where a key stands in the outcome table, or where it can be entered.
    fn find_outcome(&self, key: u64) -> Probe
        ensures { Probed 4 8 self.now.memo.now key result }
    {
        tables::find::<MapPlace>(self.memo, key)
    }

    // What is remembered at a place of the outcome table: 0 while its pair is open.
    fn remembered(&self, i: usize) -> u64
        requires { i < places 8 self.now.memo.now }
        ensures value { result ≡ value_at 4 8 self.now.memo.now i }
        ensures upper_bound { result < 4294967296 }
    {
        tables::value::<MapPlace>(self.memo, i)
    }

    // Where a key stands in the walked table, or where it can be entered.
    fn find_walked(&self, key: u64) -> Probe
        ensures { Probed 4 4 self.now.walked.now key result }
    {
        tables::find::<SetPlace>(self.walked, key)
    }

    // The outcome of a node entered with a state. While walking, a pair not yet walked is stepped afresh.
    #[cycle(visiting)]
    fn visit(&mut self, down: Down, n: usize, s: AbsStack) -> Result<Outcome, Refusal>
        requires { Ready self.old × WellFormed max_len s × Node self.old n }
        ensures same { SamePass self.old self.new }
        ensures answers { Answers self.old (λ S W. visit S down.left down.walking n (state_of s) W) IsOutcome result self.new }
    {
        if down.left == 0 {
            return Err(Refusal::TooDeep);
        }
        if !down.walking {
            return self.outcome(down.left, n, s);
        }
        let key = turns::key(n, s);
        match self.find_walked(key) {
            Probe::Found(_) => self.outcome(down.left, n, s),
            Probe::Free(i) => {
                tables::enter::<SetPlace>(self.walked, i, key, 0);
                let inner = Down {
                    left: down.left - 1,
                    walking: true,
                };
                self.step(inner, n, s)
            }
            Probe::Full => Err(Refusal::WalkedFull),
        }
    }

    // The outcome of a node entered with a state, remembered; a pair still open answers UNKNOWN. Walking is off below.
    #[cycle(visiting)]
    fn outcome(&mut self, left: usize, n: usize, s: AbsStack) -> Result<Outcome, Refusal>
        requires { Ready self.old × WellFormed max_len s × Node self.old n }
        ensures same { SamePass self.old self.new }
        ensures answers { Answers self.old (λ S W. visit S left false n (state_of s) W) IsOutcome result self.new }
    {
        if left == 0 {
            return Err(Refusal::TooDeep);
        }
        let key = turns::key(n, s);
        match self.find_outcome(key) {
            Probe::Found(i) => {
                let v = self.remembered(i);
                if v == 0 {
                    Ok(outcomes::unknown())
                } else {
                    Ok(decode(v))
                }
            }
            Probe::Free(i) => {
                tables::enter::<MapPlace>(self.memo, i, key, 0);
                let inner = Down {
                    left: left - 1,
                    walking: false,
                };
                let o = self.step(inner, n, s)?;
                tables::store::<MapPlace>(self.memo, i, encode(o));
                Ok(o)
            }
            Probe::Full => Err(Refusal::OutcomesFull),
        }
    }

    // One step: a node from the outcomes of its parts.
    #[cycle(visiting)]
    fn step(&mut self, down: Down, n: usize, s: AbsStack) -> Result<Outcome, Refusal>
        requires { Ready self.old × WellFormed max_len s × Node self.old n }
        ensures same { SamePass self.old self.new }
        ensures answers { Answers self.old (λ S W. step S (visit S down.left) down.walking n (state_of s) W) IsOutcome result self.new }
    {
        match kind_at(self.names, n) {
            Kind::InPlace => Ok(outcomes::succeeds(s)),
            Kind::Match => Ok(outcomes::either(s)),
            Kind::Ident(name) => self.ident(down, name, s),
            Kind::NodeTag(part) => self.visit(down, part, s),
            Kind::PosPred(part) => Ok(outcomes::of_pos_pred(s, self.visit(down, part, s)?)),
            Kind::NegPred(part) => Ok(outcomes::of_neg_pred(s, self.visit(down, part, s)?)),
            Kind::Opt(part) => Ok(outcomes::of_opt(s, self.visit(down, part, s)?)),
            Kind::Push(part) => Ok(outcomes::of_push(self.visit(down, part, s)?)),
            Kind::PushLiteral(len) => Ok(outcomes::of_push_literal(len, s)),
            Kind::Seq(left, right) => self.seq(down, left, right, s),
            Kind::Choice(left, right) => self.choice(down, left, right, s),
            Kind::Unbounded(part, required) => self.repeat(down, n, part, required, s),
            Kind::Bounded(part, required, optional) => {
                self.repeat_bounded(down, part, required, optional, s)
            }
        }
    }

    // A name: built-in stack names, then rules.
    #[cycle(visiting)]
    fn ident(&mut self, down: Down, name: Name, s: AbsStack) -> Result<Outcome, Refusal>
        requires { Ready self.old × WellFormed max_len s × NameBelow (length (grammar self.old.names.image.bytes.now).nodes) name }
        ensures same { SamePass self.old self.new }
        ensures answers { Answers self.old (λ S W. step_kind S (visit S down.left) down.walking 0 (name_is name) (state_of s) W) IsOutcome result self.new }
    {
        match name {
            Name::Stack(StackName::Peek) => Ok(outcomes::of_peek(s)),
            Name::Stack(StackName::PeekAll) => Ok(outcomes::of_peek_all(s)),
            Name::Stack(StackName::Pop) => Ok(outcomes::of_pop(s)),
            Name::Stack(StackName::PopAll) => Ok(outcomes::of_pop_all(s)),
            Name::Stack(StackName::Drop) => Ok(outcomes::of_drop(s)),
            Name::Rule(root) => self.rule(down.left, root, s),
            Name::Unknown => Ok(outcomes::either(s)),
        }
    }

    // A rule's name asks about the rule's root, with walking off.
    #[cycle(visiting)]
    fn rule(&mut self, left: usize, root: usize, s: AbsStack) -> Result<Outcome, Refusal>
        requires { Ready self.old × WellFormed max_len s × Node self.old root }
        ensures same { SamePass self.old self.new }
        ensures answers { Answers self.old (λ S W. visit S left false root (state_of s) W) IsOutcome result self.new }
    {
        self.outcome(left, root, s)
    }

    // A sequence: the right side is asked from the state the left one succeeds with.
    #[cycle(visiting)]
    fn seq(
        &mut self,
        down: Down,
        left: usize,
        right: usize,
        s: AbsStack,
    ) -> Result<Outcome, Refusal>
        requires { Ready self.old × WellFormed max_len s × Node self.old left × Node self.old right }
        ensures same { SamePass self.old self.new }
        ensures answers { Answers self.old (λ S W. and_then (visit S down.left down.walking left (state_of s) W) (λ l W₁. seq_rest S (visit S down.left) down.walking right (state_of s) l W₁ l.ok)) IsOutcome result self.new }
    {
        let l = self.visit(down, left, s)?;
        match l.ok {
            None => Ok(outcomes::of_seq(self.skips, s, l, outcomes::never())),
            Some(mid) => {
                let r = self.visit(down, right, mid)?;
                Ok(outcomes::of_seq(self.skips, s, l, r))
            }
        }
    }

    // A choice: the right side is asked from the state the left one fails with, kept or restored.
    #[cycle(visiting)]
    fn choice(
        &mut self,
        down: Down,
        left: usize,
        right: usize,
        s: AbsStack,
    ) -> Result<Outcome, Refusal>
        requires { Ready self.old × WellFormed max_len s × Node self.old left × Node self.old right }
        ensures same { SamePass self.old self.new }
        ensures answers { Answers self.old (λ S W. and_then (visit S down.left down.walking left (state_of s) W) (λ l W₁. choice_rest S (visit S down.left) down.walking right (state_of s) l W₁ (failed l.err (state_of s)))) IsOutcome result self.new }
    {
        let l = self.visit(down, left, s)?;
        match outcomes::failed(l.err, s) {
            None => Ok(outcomes::of_choice(s, l, outcomes::never())),
            Some(from) => {
                let r = self.visit(down, right, from)?;
                Ok(outcomes::of_choice(s, l, r))
            }
        }
    }

    // A repetition without a most: while walking it is first searched for a loop; then its required copies, then a greedy run.
    #[cycle(visiting)]
    fn repeat(
        &mut self,
        down: Down,
        n: usize,
        part: usize,
        required: usize,
        s: AbsStack,
    ) -> Result<Outcome, Refusal>
        requires { Ready self.old × WellFormed max_len s × Node self.old part × Node self.old n }
        ensures same { SamePass self.old self.new }
        ensures answers { Answers self.old (λ S W. repeat_unbounded S (visit S down.left) down.walking n part required (state_of s) W) IsOutcome result self.new }
    {
        self.search_loop(down, n, part, s)?;
        let q = self.steps(down, part, true, required, s, !self.skips)?;
        let err = turns::restored(q.fails, s);
        match q.end {
            None => Ok(Outcome {
                ok: None,
                err,
                empty: true,
            }),
            Some(mid) => {
                let g = self.greedy(down, part, mid, q.empty)?;
                Ok(Outcome {
                    ok: g.end,
                    err,
                    empty: g.empty,
                })
            }
        }
    }

    // A repetition with a most: its required copies, then its optional ones. Under skips it is not empty, unless its most is 1 or less.
    #[cycle(visiting)]
    fn repeat_bounded(
        &mut self,
        down: Down,
        part: usize,
        required: usize,
        optional: usize,
        s: AbsStack,
    ) -> Result<Outcome, Refusal>
        requires { Ready self.old × WellFormed max_len s × Node self.old part × (required + optional < 18446744073709551616) }
        ensures same { SamePass self.old self.new }
        ensures answers { Answers self.old (λ S W. repeat_bounded S (visit S down.left) down.walking part required optional (state_of s) W) IsOutcome result self.new }
    {
        let empty = !self.skips || required + optional < 2;
        let q = self.steps(down, part, true, required, s, empty)?;
        let err = turns::restored(q.fails, s);
        match q.end {
            None => Ok(Outcome {
                ok: None,
                err,
                empty: true,
            }),
            Some(mid) => {
                let g = self.steps(down, part, false, optional, mid, q.empty)?;
                Ok(Outcome {
                    ok: g.end,
                    err,
                    empty: g.empty,
                })
            }
        }
    }

    // While walking, an unbounded repetition that loops is reported.
    #[cycle(visiting)]
    fn search_loop(&mut self, down: Down, n: usize, part: usize, s: AbsStack) -> Result<(), Refusal>
        requires { Ready self.old × WellFormed max_len s × Node self.old part × Node self.old n }
        ensures same { SamePass self.old self.new }
        ensures answers { Answers self.old (λ S W. searched S (visit S down.left) down.walking n part (state_of s) W) Done result self.new }
    {
        if !down.walking {
            return Ok(());
        }
        let loops = self.loops_forever(down.left, part, s)?;
        if !loops {
            return Ok(());
        }
        self.count = turns::report(
            self.names.image,
            self.table,
            self.marks,
            self.count,
            n,
            part,
            s,
        )?;
        Ok(())
    }

    // So many copies in a row: required ones, or optional ones (a flag, as in the definition `steps`). A start that comes again ends the run, by its period.
    #[cycle(visiting)]
    fn steps(
        &mut self,
        down: Down,
        part: usize,
        required: bool,
        copies: usize,
        s: AbsStack,
        empty: bool,
    ) -> Result<Ran, Refusal>
        requires { Ready self.old × WellFormed max_len s × Node self.old part }
        ensures same { SamePass self.old self.new }
        ensures answers { Answers self.old (λ S W. steps (visit S down.left) down.walking part required starts copies [] (state_of s) empty false W) IsRan result self.new }
    {
        let mut run = starts::none();
        let mut at = s;
        let mut still = empty;
        let mut fails = false;
        for done in 0..copies {
            if let Some(i) = starts::find(run, pack(at)) {
                return Ok(turns::ended(run, i, copies - done, still, fails));
            }
            if run.count == 64 {
                return Err(Refusal::ManyStarts);
            }
            let o = self.visit(down, part, at)?;
            still &= outcomes::still(o);
            fails |= o.err.is_some();
            run = starts::add(run, pack(at));
            match turns::next(required, at, o) {
                None => return Ok(Ran {
                    end: None,
                    empty: still,
                    fails,
                }),
                Some(next) => at = next,
            }
        }
        Ok(Ran {
            end: Some(at),
            empty: still,
            fails,
        })
    }

    // Copies until one fails, which ends the run with success: every state it can end with. A start that comes again ends it too.
    #[cycle(visiting)]
    fn greedy(&mut self, down: Down, part: usize, s: AbsStack, empty: bool) -> Result<Ran, Refusal>
        requires { Ready self.old × WellFormed max_len s × Node self.old part }
        ensures same { SamePass self.old self.new }
        ensures answers { Answers self.old (λ S W. greedy (visit S down.left) down.walking part starts [] (state_of s) true empty none W) IsRan result self.new }
    {
        let mut run = starts::none();
        let mut at = s;
        let mut first = true;
        let mut still = empty;
        let mut ends = None;
        loop {
            if starts::find(run, pack(at)).is_some() {
                return Ok(Ran {
                    end: ends,
                    empty: still,
                    fails: false,
                });
            }
            if run.count == 64 {
                return Err(Refusal::ManyStarts);
            }
            let o = self.visit(down, part, at)?;
            ends = turns::ends(first, at, o.err, ends);
            still &= outcomes::still(o);
            run = starts::add(run, pack(at));
            first = false;
            match o.ok {
                None => return Ok(Ran {
                    end: ends,
                    empty: still,
                    fails: false,
                }),
                Some(t) => at = t,
            }
        }
    }

    // Whether the turns of a repetition come round again, each succeeding and consuming nothing: 64 steps at most.
    #[cycle(visiting)]
    fn loops_forever(&mut self, left: usize, part: usize, s: AbsStack) -> Result<bool, Refusal>
        requires { Ready self.old × WellFormed max_len s × Node self.old part }
        ensures same { SamePass self.old self.new }
        ensures answers { Answers self.old (λ S W. loops_forever (visit S left) part search_steps (state_of s) [] W) IsLoop result self.new }
    {
        let mut seen = starts::none();
        let mut cur = s;
        for _ in 0..64usize {
            let o = self.outcome(left, part, cur.fresh())?;
            let Some(out) = outcomes::exact(o) else {
                return Ok(false);
            };
            let Some(past) = turns::hunt_on(seen, cur, out) else {
                return Ok(true);
            };
            seen = past;
            cur = out;
        }
        Ok(false)
    }

    // Every rule is walked from Any, nothing tracked, intact: in order, to the first refusal.
    fn walk_rules(&mut self) -> Result<(), Refusal>
        requires { Ready self.old }
        ensures same { SamePass self.old self.new }
        ensures answers { Answers self.old (λ S W. walk_rules S (grammar self.old.names.image.bytes.now).rules W) Done result self.new }
    {
        let n = self.names.image.rule_count();
        let down = Down {
            left: 256,
            walking: true,
        };
        for i in 0..n {
            self.visit(down, self.names.image.root_at(i), AbsStack::entry())?;
        }
        Ok(())
    }
}

// The stack pass over an image whose names are resolved: its reports go behind the `count` reports of the table. Both work
// tables come back zero, whatever they held; on a refusal the report table too. Skips that may change the stack: nothing is run.
pub fn stack_pass(
    names: Names,
    memo: &mut [u8],
    walked: &mut [u8],
    table: &mut [u8],
    count: usize,
) -> Result<usize, Refusal>
    requires { Holds table.old (take count (words table.old)) × (count ≤ places 8 table.old) }
    ensures { StackPassed names.entry.image.bytes.now memo.old walked.old table.old count result memo.new walked.new table.new }
{
    tables::clear(memo);
    tables::clear(walked);
    if skips_modify(names) {
        return Ok(count);
    }
    let mut marks = [0u8; 2048];
    let mut pass = Pass {
        names,
        skips: skips(names.image),
        memo,
        walked,
        table,
        marks: &mut marks,
        count,
    };
    let walked_all = pass.walk_rules();
    let reports = pass.count;
    tables::clear(memo);
    tables::clear(walked);
    match walked_all {
        Ok(()) => Ok(reports),
        Err(refusal) => {
            tables::clear(table);
            Err(refusal)
        }
    }
}
