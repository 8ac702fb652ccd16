// Names as lines that can be shown, of a fixed size (there is no heap), and texts without the spaces behind them.
ghost use Rattle.std.specs.Prelude.{◌≡◌, get_or, length, take};
ghost use Rattle.words.specs.Line as Line;
ghost use Rattle.words.specs.Line.{plain_line, Trimmed};

use std::array;

// A byte that a terminal only shows: itself from space to tilde, else a question mark.
fn plain(b: u8) -> u8
    ensures { result ≡ Line.plain b }
{
    match b {
        b' '..=b'~' => b,
        _ => b'?',
    }
}

// The byte of a name at a place as it is shown, a space past the end.
fn shown_at(name: &[u8], j: usize) -> u8
    ensures { result ≡ Line.plain (get_or name.now j 32) }
{
    name.get(j).map_or(b' ', |b| plain(*b))
}

// A name of an image, which can have any bytes, as a line that can be shown.
pub fn shown(name: &[u8]) -> [u8; 64]
    ensures { result ≡ plain_line name.now }
{
    array::from_fn(|j| shown_at(name, j))
}

// A text without the spaces at its end.
pub fn trimmed(text: &[u8]) -> &[u8]
    ensures count { Trimmed text.now (length result.now) }
    ensures part { result.now ≡ take (length result.now) text.now }
{
    let mut kept = text;
    while let [rest @ .., b' '] = kept {
        kept = rest;
    }
    kept
}
