// Runs the tables to full and past it, and prints how each ask is answered.
// Line 1: eight 8-byte places are asked 24 times for eleven keys in turn. 0: the key is new and is put in; 8: it is new and no place
// is free; another digit: how often it was met before. So eight are new, three are refused, and the later rounds know the eight.
// Line 2: nine 4-byte places and two bytes more, the same 24 asks. 0: new; 1: known; 9: no place is free.
// Line 3: line 1 again, after `clear`.
// Line 4: the three words of a report table of 30 bytes, the first written twice and the last never.
#![tactic(auto)]

use std::io;
use tables::report::{set_word, word_at};
use tables::{MapPlace, Probe, SetPlace, clear, enter, find, store, value};

// A digit as a byte of text.
fn digit(x: u64) -> u8 {
    (x % 10) as u8 + b'0'
}

// Eleven keys, not in order, again and again.
fn key_of(i: usize) -> u64 {
    (i % 11 * 7 % 11 + 1) as u64
}

// Asks the map for a key and counts its meetings in its value.
fn meet(t: &mut [u8], key: u64) -> u8 {
    match find::<MapPlace>(t, key) {
        Probe::Found(i) => {
            let met = value::<MapPlace>(t, i);
            store::<MapPlace>(t, i, met + 1);
            digit(met)
        }
        Probe::Free(i) => {
            enter::<MapPlace>(t, i, key, 1);
            b'0'
        }
        Probe::Full => b'8',
    }
}

// One ask for each byte of out.
fn meet_all(t: &mut [u8], out: &mut [u8]) {
    for (i, answer) in out.iter_mut().enumerate() {
        *answer = meet(t, key_of(i));
    }
}

// Asks the set for a key and puts it in.
fn walk(t: &mut [u8], key: u64) -> u8 {
    match find::<SetPlace>(t, key) {
        Probe::Found(_) => b'1',
        Probe::Free(i) => {
            enter::<SetPlace>(t, i, key, 0);
            b'0'
        }
        Probe::Full => b'9',
    }
}

// One ask for each byte of out.
fn walk_all(t: &mut [u8], out: &mut [u8]) {
    for (i, answer) in out.iter_mut().enumerate() {
        *answer = walk(t, key_of(i));
    }
}

// Puts two words of three and prints all three.
fn print_words(rt: &impl Print) -> io::Result<()> {
    let mut t = [0u8; 30];
    set_word(&mut t, 0, 99999999999);
    set_word(&mut t, 1, 12884901890);
    set_word(&mut t, 0, 14495514628);
    println!(rt;
        "{:011} {:011} {:011}",
        word_at(&t, 0),
        word_at(&t, 1),
        word_at(&t, 2)
    )
}

fn main(rt: HostRuntime) -> io::Result<()> {
    let mut map = [0u8; 64];
    let mut set = [0u8; 38];
    let mut out = [0u8; 24];
    meet_all(&mut map, &mut out);
    rt.write_all(&out)?;
    rt.write_all(b"\n")?;
    walk_all(&mut set, &mut out);
    rt.write_all(&out)?;
    rt.write_all(b"\n")?;
    clear(&mut map);
    meet_all(&mut map, &mut out);
    rt.write_all(&out)?;
    rt.write_all(b"\n")?;
    print_words(&rt)
}
