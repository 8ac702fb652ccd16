// `left_recursion`: from each rule the search for an Ident that names it. It calls itself on parts and rule roots, with open nodes left falling.
ghost use Rattle.std.specs.Prelude.{◌≡◌, ◌+◌, reverse, ◌≤◌, ◌<◌, length, get_or};
ghost use Rattle.image.specs.Grammar.{grammar};
ghost use Rattle.image.specs.Promise.{IsNode, IsRule};
ghost use Rattle.passes.specs.LeftRecursion.{or_else, check_name, enter, search_from};
ghost use Rattle.passes.specs.Promise.{held, RulesNamed, trail_of, Answers, Leaves, rule_into, LeftPass};
ghost use Rattle.passes.specs.Steps.{Seeks, rule_at};

use crate::placing::{Reason, put, report_of};
use arrayvec::ArrayVec;
use image::Image;
use image::expr::Expr;
use image::refusal::Refusal;

// The rules entered, the first one first, and zeros past the newest.
#[derive(Clone, Copy)]
pub struct Trail {
    pub rules: [u16; 257],
    pub len: usize,
}

// A find: the Ident, and the rules entered on the way to it.
#[derive(Clone, Copy)]
pub struct Find {
    pub ident: usize,
    pub trail: Trail,
}

// How a search ended, and how many nodes it entered.
#[derive(Clone, Copy)]
pub struct Search {
    pub end: Result<Option<Find>, Refusal>,
    pub entered: usize,
}

// What a search from one rule goes by: the image, the number of each name's rule, and the rule.
#[derive(Clone, Copy)]
struct Quest<'a> {
    image: Image<'a>,
    rules: &'a [u16; 2048],
    first: usize,
    ghost named: { RulesNamed (grammar image.bytes.now) rules.now },
}

// What a search changes: the rules entered, and how many nodes.
#[derive(Drop)]
struct Route {
    trail: ArrayVec<u16, 257>,
    entered: usize,
}

impl Quest<'_> {
    // Enters a node while this many more nodes may open.
    #[cycle(entering)]
    fn enter(&self, route: &mut Route, left: usize, n: usize) -> Result<Option<usize>, Refusal>
        requires room { length route.old.trail.items + left ≤ 257 }
        requires node { IsNode self.now.image.bytes.now n }
        ensures { Seeks (enter (grammar self.now.image.bytes.now) self.now.first left (reverse route.old.trail.items) route.old.entered n) route.old.trail.items result route.new.entered route.new.trail.items }
    {
        if left == 0 {
            return Err(Refusal::TooDeep);
        }
        if 65536 <= route.entered {
            return Err(Refusal::LongSearch);
        }
        route.entered += 1;
        match self.image.expr_at(n) {
            Expr::Ident(_, _) => self.check_name(route, left - 1, n),
            Expr::Choice(l, r) => self.check_both(route, left - 1, l, r),
            Expr::Seq(l, r) => {
                if self.image.bits_at(l) / 4 % 2 == 1 {
                    self.check_both(route, left - 1, l, r)
                } else {
                    self.enter(route, left - 1, l)
                }
            }
            Expr::PosPred(part)
            | Expr::NegPred(part)
            | Expr::Opt(part)
            | Expr::Rep(part)
            | Expr::RepOnce(part)
            | Expr::RepExact(part, _)
            | Expr::RepMin(part, _)
            | Expr::RepMax(part, _)
            | Expr::RepMinMax(part, _, _)
            | Expr::Push(part)
            | Expr::NodeTag(part) => self.enter(route, left - 1, part),
            Expr::Str(_, _)
            | Expr::Insens(_, _)
            | Expr::Range
            | Expr::PeekSlice(_, _, _)
            | Expr::PushLiteral(_, _) => Ok(None),
        }
    }

    // The one side, or else the other.
    #[cycle(entering)]
    fn check_both(
        &self,
        route: &mut Route,
        left: usize,
        l: usize,
        r: usize,
    ) -> Result<Option<usize>, Refusal>
        requires room { length route.old.trail.items + left ≤ 257 }
        requires nodes { IsNode self.now.image.bytes.now l × IsNode self.now.image.bytes.now r }
        ensures { Seeks (or_else (enter (grammar self.now.image.bytes.now) self.now.first left (reverse route.old.trail.items) route.old.entered l) (λ e. enter (grammar self.now.image.bytes.now) self.now.first left (reverse route.old.trail.items) e r)) route.old.trail.items result route.new.entered route.new.trail.items }
    {
        if let Some(ident) = self.enter(route, left, l)? {
            return Ok(Some(ident));
        }
        self.enter(route, left, r)
    }

    // An Ident: the first rule ends the search, another rule is entered where it is not on the trail.
    #[cycle(entering)]
    #[tactic(auto, using(image::proofs::GrammarLaws::formed))]
    fn check_name(&self, route: &mut Route, left: usize, n: usize) -> Result<Option<usize>, Refusal>
        requires room { length route.old.trail.items + left < 257 }
        requires node { IsNode self.now.image.bytes.now n }
        requires rule { get_or self.now.rules.now n 0 ≤ length (grammar self.now.image.bytes.now).rules }
        ensures { Seeks (check_name (grammar self.now.image.bytes.now) self.now.first (enter (grammar self.now.image.bytes.now) self.now.first left) (reverse route.old.trail.items) route.old.entered n (rule_at (get_or self.now.rules.now n 0))) route.old.trail.items result route.new.entered route.new.trail.items }
    {
        let Some(r) = self.rules[n].checked_sub(1) else {
            return Ok(None);
        };
        if r as usize == self.first {
            return Ok(Some(n));
        }
        if route.trail.contains(&r) {
            return Ok(None);
        }
        route.trail.push(r);
        if let Some(ident) = self.enter(route, left, self.image.root_at(r as usize))? {
            return Ok(Some(ident));
        }
        route.trail.pop();
        Ok(None)
    }
}

// The trail of a find: a value of its own, where the search has a vector.
fn kept(rules: &[u16]) -> Trail
    requires { length rules.now ≤ 257 }
    ensures { result ≡ trail_of (reverse rules.now) }
{
    let len = rules.len();
    let mut kept = [0; 257];
    kept[..len].copy_from_slice(rules);
    Trail { rules: kept, len }
}

// The search from one rule, which is on the trail from the start.
#[tactic(auto, using(image::proofs::GrammarLaws::formed))]
pub fn search_from(image: Image, rules: &[u16; 2048], i: usize) -> Search
    requires { IsRule image.bytes.now i × RulesNamed (grammar image.bytes.now) rules.now }
    ensures { Answers (search_from (grammar image.entry.bytes.now) i) result }
{
    let quest = Quest {
        image,
        rules,
        first: i,
    };
    let mut trail = ArrayVec::new();
    trail.push(i as u16);
    let mut route = Route { trail, entered: 0 };
    let found = quest.enter(&mut route, 256, image.root_at(i));
    let Route { trail, entered } = route;
    match found {
        Ok(found) => Search {
            end: Ok(found.map(|ident| Find {
                ident,
                trail: kept(&trail),
            })),
            entered,
        },
        Err(k) => Search {
            end: Err(k),
            entered,
        },
    }
}

// The search from one rule, and its report.
fn run_rule(
    image: Image,
    rules: &[u16; 2048],
    i: usize,
    table: &mut [u8],
    count: usize,
) -> Result<usize, Refusal>
    requires { IsRule image.bytes.now i × RulesNamed (grammar image.bytes.now) rules.now }
    ensures { Leaves result table.new (rule_into (held table.old count) (search_from (grammar image.entry.bytes.now) i) (search_from (grammar image.entry.bytes.now) i).end) }
{
    match search_from(image, rules, i).end? {
        Some(find) => put(table, count, report_of(find.ident, Reason::LeftRecursion)),
        None => Ok(count),
    }
}

// Reason 5: all rules in order, to the first refusal. The count comes to that with their reports, on a refusal with those placed before it.
pub fn run(
    image: Image,
    rules: &[u16; 2048],
    table: &mut [u8],
    count: &mut usize,
) -> Result<(), Refusal>
    requires { RulesNamed (grammar image.bytes.now) rules.now }
    ensures { LeftPass (grammar image.entry.bytes.now) table.old count.old table.new count.new result }
{
    for i in 0..image.rule_count() {
        *count = run_rule(image, rules, i, table, *count)?;
    }
    Ok(())
}
