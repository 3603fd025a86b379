// Octets as text: two hex digits each, without blanks, and `-` for none.
ghost use Rattle.std.specs.Prelude.{◌≡◌, ℕ, ◌<◌, IfSome};
ghost use Rattle.script.specs.Words.{hex_digit, hex_octet, id_read};

use frame::NodeId;
use std::alloc::{AllocError, Global};
use std::fmt;
use std::str::FromStr;

#[derive(Drop)]
pub struct Hex<'a>(pub &'a [u8]);

impl fmt::Display for Hex<'_> {
    fn fmt<W: fmt::Write>(&self, f: &mut fmt::Formatter<W>) -> fmt::Result {
        if self.0.is_empty() {
            return write!(f, "-");
        }
        for octet in self.0 {
            write!(f, "{octet:02X}")?;
        }
        Ok(())
    }
}

// A Node ID: its six octets.
#[derive(Clone, Copy, PartialEq, Eq, Debug)]
pub struct Id(pub NodeId);

impl fmt::Display for Id {
    fn fmt<W: fmt::Write>(&self, f: &mut fmt::Formatter<W>) -> fmt::Result {
        let hex = Hex(&self.0.octets);
        write!(f, "{hex}")
    }
}

// The octets that a word stands for; none where it is no hex.
pub fn octets_of(word: &str, heap: Global) -> Result<Option<Vec<u8>>, AllocError> {
    let mut octets = Vec::new(heap);
    if word == "-" {
        return Ok(Some(octets));
    }
    let digits = word.as_bytes();
    if digits.len() % 2 != 0 {
        return Ok(None);
    }
    for pair in digits.chunks_exact(2) {
        let Some(octet) = octet_of(pair[0], pair[1]) else {
            return Ok(None);
        };
        octets.push(octet)?;
    }
    Ok(Some(octets))
}

// A word that is no Node ID.
#[derive(Clone, Copy, PartialEq, Eq, Debug)]
pub struct NoId;

// The Node ID in twelve hex digits.
impl FromStr for Id {
    type Err = NoId;

    ghost from_str_gives = { λ word read. read ≡ id_read word };

    fn from_str(word: &str) -> Result<Id, NoId> {
        let [a, b, c, d, e, f, g, h, i, j, k, l] = word.as_bytes() else {
            return Err(NoId);
        };
        let octets = [
            octet_of(*a, *b).ok_or(NoId)?,
            octet_of(*c, *d).ok_or(NoId)?,
            octet_of(*e, *f).ok_or(NoId)?,
            octet_of(*g, *h).ok_or(NoId)?,
            octet_of(*i, *j).ok_or(NoId)?,
            octet_of(*k, *l).ok_or(NoId)?,
        ];
        Ok(Id(NodeId { octets }))
    }
}

fn octet_of(high: u8, low: u8) -> Option<u8>
    ensures { result ≡ hex_octet high low }
{
    Some(digit_of(high)? * 16 + digit_of(low)?)
}

fn digit_of(letter: u8) -> Option<u8>
    ensures value { result ≡ hex_digit letter }
    ensures small { IfSome result (λ d. d < 16) }
{
    match letter {
        b'0'..=b'9' => Some(letter - b'0'),
        b'A'..=b'F' => Some(letter - b'A' + 10),
        b'a'..=b'f' => Some(letter - b'a' + 10),
        _ => None,
    }
}
