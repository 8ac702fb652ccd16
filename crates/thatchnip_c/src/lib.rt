// The check for C hosts: the library's entry `thatchnip_check` under its C name, with the same promise. A static library has no other export.
#![tactic(auto)]

ghost use Rattle.thatchnip.specs.Promise.{Checked};

// Checks a grammar's node image over three lent tables. The number is count + 2^32 × refusal.
#[unsafe(no_mangle)]
pub extern "C" fn thatchnip_check(
    image: &[u8],
    outcomes: &mut [u8],
    walked: &mut [u8],
    reports: &mut [u8],
) -> u64
    ensures { Checked image.now outcomes.old walked.old reports.old result outcomes.new walked.new reports.new }
{
    thatchnip::thatchnip_check(image, outcomes, walked, reports)
}
