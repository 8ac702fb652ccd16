// Judges images: standard input has one a line, a name, a space and the image as lower-case hex; standard output gets each name with its refusal.
// The stored input and the numbers expected are written by oracle/image_cases.py, which knows document 01 and nothing of this code.
#![tactic(auto)]

ghost use Rattle.std.specs.Prelude.{◌<◌, length, IfSome};
ghost use Rattle.std.specs.Counts.{IsPrefixLen};

use std::io;
use std::io::Read;

// Input of so many bytes or more is not judged.
const TOO_LONG: usize = 409600;
// The most bytes of an image.
const MOST: usize = 65536;

// The value of a lower-case hex digit.
fn digit(b: u8) -> Option<u8>
    ensures { IfSome result (λ value. value < 16) }
{
    match b {
        b'0'..=b'9' => Some(b - b'0'),
        b'a'..=b'f' => Some(b - b'a' + 10),
        _ => None,
    }
}

// Puts the bytes of hex at the start of out, and answers them. None where it is not pairs of digits, or more than fit.
fn decode<'a>(hex: &[u8], out: &'a mut [u8]) -> Option<&'a [u8]>
    ensures { IfSome result (λ image. IsPrefixLen (length image.now) out.old) }
{
    let (pairs, rest) = hex.as_chunks::<2>();
    let bytes = out.get_mut(..pairs.len())?;
    if !rest.is_empty() {
        return None;
    }
    for (byte, pair) in bytes.iter_mut().zip(pairs) {
        *byte = digit(pair[0])? * 16 + digit(pair[1])?;
    }
    Some(bytes)
}

// The refusal of an image in hex, 0 where it is accepted. None where it is malformed.
fn refusal(hex: &[u8]) -> Option<u8> {
    let mut bytes = [0u8; MOST];
    let image = decode(hex, &mut bytes)?;
    Some(
        image::judge(image)
            .err()
            .map_or(0, |refusal| refusal.number()),
    )
}

// One case: a name, a space, an image.
fn judge_line(rt: &impl Print, line: &[u8]) -> io::Result<()> {
    let mut parts = line.splitn(2, |b| *b == b' ');
    rt.write_all(parts.next().unwrap_or(line))?;
    match parts.next().and_then(refusal) {
        Some(number) => println!(rt; " {number}"),
        None => println!(rt; " malformed"),
    }
}

fn main(rt: HostRuntime) -> io::Result<()> {
    let mut input = Vec::new(rt.alloc());
    rt.stdin().take(TOO_LONG as u64).read_to_end(&mut input)?;
    if input.len() == TOO_LONG {
        return println!(rt; "too long");
    }
    for line in input.split_inclusive(|b| *b == b'\n') {
        judge_line(&rt, line.strip_suffix(b"\n").unwrap_or(line))?;
    }
    Ok(())
}
