// The check whole, at the boundary that the bench calls: an image, three lent tables, one number.
#![tactic(auto)]

ghost use Rattle.std.specs.Prelude.{◌≡◌, [], ◌*◌, ◌≤◌, length, take};
ghost use Rattle.image.specs.Grammar.{grammar};
ghost use Rattle.image.specs.RefusalNumber.{refusal_number};
ghost use Rattle.tables.specs.Words.{words, Holds};
ghost use Rattle.tables.specs.Places.{places};
ghost use Rattle.passes.specs.Promise.{RulesNamed};
ghost use Rattle.thatchnip.specs.Promise.{OnlyRules, FirstPasses, LastPasses, CheckedImage, Checked};

use analysis::stack_pass;
use image::Image;
use image::refusal::Refusal;
use passes::topdown::{validate_choices, validate_repetition};
use passes::{left, order};
use reading::names::{Names, resolve};
use tables::clear;

// The result of a refusal: its number, and no report.
fn refused(k: Refusal) -> u64
    ensures { result ≡ 4294967296 * refusal_number k }
{
    4294967296 * u64::from(k.number())
}

// Of each name's word the rule alone is kept: its number counted from 1, 0 for none.
fn only_rules(names: &mut [u16; 2048])
    ensures { OnlyRules names.old names.new }
{
    for word in names {
        *word %= 512;
    }
}

// Reasons 1 and 2, then 3. Both work tables come back zero.
fn first_passes(
    names: Names,
    outcomes: &mut [u8],
    walked: &mut [u8],
    reports: &mut [u8],
) -> Result<usize, Refusal>
    requires { Holds reports.old [] }
    ensures { FirstPasses names.entry.image.bytes.now outcomes.old walked.old reports.old result outcomes.new walked.new reports.new }
{
    match validate_repetition(names.image, reports, 0) {
        Ok(count) => stack_pass(names, outcomes, walked, reports, count),
        Err(k) => {
            clear(outcomes);
            clear(walked);
            Err(k)
        }
    }
}

// Reason 4, then 5, then the final order.
fn last_passes(
    image: Image,
    rules: &[u16; 2048],
    reports: &mut [u8],
    count: usize,
) -> Result<usize, Refusal>
    requires { RulesNamed (grammar image.bytes.now) rules.now × Holds reports.old (take count (words reports.old)) × (count ≤ places 8 reports.old) }
    ensures { LastPasses image.entry.bytes.now reports.old count result reports.new }
{
    let mut count = validate_choices(image, reports, count)?;
    left::run(image, rules, reports, &mut count)?;
    order::sort(image, reports, count);
    Ok(count)
}

// The passes over an accepted image, in their order, to the first refusal.
fn check_image(
    image: Image,
    outcomes: &mut [u8],
    walked: &mut [u8],
    reports: &mut [u8],
) -> Result<usize, Refusal>
    requires { Holds reports.old [] }
    ensures { CheckedImage image.entry.bytes.now outcomes.old walked.old reports.old result outcomes.new walked.new reports.new }
{
    let mut words = [0; 2048];
    resolve(image, &mut words);
    let names = Names {
        image,
        words: &words,
    };
    let count = first_passes(names, outcomes, walked, reports)?;
    only_rules(&mut words);
    last_passes(image, &words, reports, count)
}

// Checks a grammar's node image over three lent tables. The number is count + 2^32 × refusal.
pub fn thatchnip_check(
    image: &[u8],
    outcomes: &mut [u8],
    walked: &mut [u8],
    reports: &mut [u8],
) -> u64
    ensures { Checked image.now outcomes.old walked.old reports.old result outcomes.new walked.new reports.new }
{
    clear(reports);
    match Image::new(image) {
        Ok(image) => match check_image(image, outcomes, walked, reports) {
            Ok(count) => count as u64,
            Err(k) => {
                clear(reports);
                refused(k)
            }
        },
        Err(k) => {
            clear(outcomes);
            clear(walked);
            refused(k)
        }
    }
}
