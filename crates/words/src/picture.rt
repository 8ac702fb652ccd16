// A stack as a picture: its tracked entries from the bottom to the top, each as a cell.
ghost use Rattle.std.specs.Prelude.{◌≡◌, ◌<◌};
ghost use Rattle.words.specs.Picture as Picture;
ghost use Rattle.words.specs.Picture.{is_blank, cell_byte};

use std::array;

// How many entries are tracked in the state of a number.
pub fn entries(state: u64) -> u64
    ensures { result ≡ Picture.entries state }
{
    state / 256 % 16
}

// Whether the blank bit of entry i is set.
fn is_blank(state: u64, i: u64) -> bool
    requires { i < 8 }
    ensures { result ≡ is_blank state i }
{
    (state >> i) % 2 == 1
}

// The byte at place j of a picture.
fn cell_byte(state: u64, j: usize) -> u8
    requires { j < 64 }
    ensures { result ≡ cell_byte state j }
{
    let i = (j / 8) as u64;
    if entries(state) <= i {
        b' '
    } else if is_blank(state, i) {
        b"[blank] "[j % 8]
    } else {
        b"[  ?  ] "[j % 8]
    }
}

// The picture of a state: a cell of 8 bytes for each entry, the bottom one first, then spaces.
pub fn picture(state: u64) -> [u8; 64]
    ensures { result ≡ Picture.picture state }
{
    array::from_fn(|j| cell_byte(state, j))
}
