// A number read from decimal digits, and one as a length within a buffer.
ghost use Rattle.std.specs.Prelude.{◌≡◌};
ghost use Rattle.words.specs.Number as Number;
ghost use Rattle.words.specs.Number.{number_of, number_if, Within};

// The number after one more byte; none where that is no digit, or leads past 32 bits.
fn step(n: u32, b: u8) -> Option<u32>
    ensures { result ≡ number_if (Number.step n b) }
{
    match b {
        b'0'..=b'9' => n.checked_mul(10)?.checked_add(u32::from(b - b'0')),
        _ => None,
    }
}

// The number that a text has in decimal, if it is one of 32 bits; that of no digits is 0.
pub fn number(text: &[u8]) -> Option<u32>
    ensures { result ≡ number_of text.now }
{
    let mut n = 0;
    for b in text {
        n = step(n, *b)?;
    }
    Some(n)
}

// So many bytes of a buffer, or all of them where it has fewer.
pub fn within(bytes: u64, buf: &[u8]) -> usize
    ensures { Within bytes buf.now result }
{
    bytes.min(buf.len() as u64) as usize
}
