// Files: each opened by the argument that names it, read into a buffer, or told to be one that cannot be read.
ghost use Rattle.std.specs.Prelude.{◌≤◌, length, IfOk};

use std::fs::File;
use std::io::Read;
use std::{env, fs, io, str};

// What an error says, without the system's number behind it.
fn error_words(text: &str) -> &str {
    text.split_once(" (os error ")
        .map_or(text, |(words, _number)| words)
}

// Says on standard error why a file is not checked, and what to do.
pub(crate) fn unread(rt: &HostRuntime, path: &[u8], error: &io::Error) -> io::Result<()> {
    let text = format!(in rt.alloc(); "{error}")?;
    let to = rt.stderr();
    to.write_all(path)?;
    print!(to; ": {}\nthatchnip: ", error_words(text.as_str()))?;
    to.write_all(path)?;
    println!(to; " was not checked: name a file with a node image that may be read")
}

// Fixed memory: the library's `read_to_end` needs a Vec, and its `read_exact` fails on a file shorter than the buffer.
// Reads a file into a buffer. No image is longer than 60,440 bytes: the start of a longer file is refused as the whole would be.
fn read_image(file: &mut impl Read, image: &mut [u8]) -> io::Result<usize>
    ensures { IfOk result (λ n. n ≤ length image.old) }
{
    let mut n = 0;
    while n < image.len() {
        match file.read(&mut image[n..])? {
            0 => break,
            more => n += more,
        }
    }
    Ok(n)
}

// The link to the file that argument i names.
fn link(rt: &HostRuntime, i: usize) -> io::Result<String> {
    match env::var(rt, "THATCHNIP_LINKS") {
        Ok(folder) => Ok(format!(in rt.alloc(); "{folder}/{i}")?),
        Err(_) => Err(io::Error::from(io::ErrorKind::InvalidFilename)),
    }
}

// Opens the file that argument i names.
fn open_argument(rt: &HostRuntime, i: usize, path: &[u8]) -> io::Result<File> {
    match str::from_utf8(path) {
        Ok(text) => fs::open(rt, text),
        Err(_) => fs::open(rt, link(rt, i)?),
    }
}

// Opens the file that argument i names, reads it, and answers how many bytes it has.
pub(crate) fn load(rt: &HostRuntime, i: usize, path: &[u8], image: &mut [u8]) -> io::Result<usize>
    ensures { IfOk result (λ n. n ≤ length image.old) }
{
    let mut file = open_argument(rt, i, path)?;
    read_image(&mut file, image)
}
