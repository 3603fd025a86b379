// Answers the calls of a table of vectors, a line each: `read` and `write`.
#![tactic(auto)]

use script::{answer_read, answer_write};
use std::alloc::{AllocError, Global};
use std::io;
use std::io::{BufRead, BufReader};

// The answer to a line; none for an empty line or a comment.
fn answer(line: &str, heap: Global) -> Result<Option<String>, AllocError> {
    if line.starts_with('#') {
        return Ok(None);
    }
    let words: Vec<&str> = line.split_whitespace().collect(heap)?;
    let said = match words.as_slice() {
        [] => return Ok(None),
        ["read", ring, vid, hex] => answer_read(ring, vid, hex, heap)?,
        ["write", rest @ ..] => answer_write(rest, heap)?,
        _ => None,
    };
    match said {
        Some(text) => Ok(Some(text)),
        None => Ok(Some(String::from_str(heap, "bad line")?)),
    }
}

fn main(rt: HostRuntime) -> io::Result<()> {
    let heap = rt.alloc();
    for line in BufReader::new(heap, rt.stdin())?.lines(heap) {
        if let Some(text) = answer(line?.as_str(), heap)? {
            println!(rt; "{text}")?;
        }
    }
    Ok(())
}
