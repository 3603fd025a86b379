// The lines that read and write single frames.
use super::refusals::Refused;
use super::words::{Hex, Id, octets_of};
use frame::{Body, Channel, Message, Request, read_frame, write_frame};
use std::alloc::{AllocError, Global};
use std::fmt;
use std::str::FromStr;

// What a message is, in a script's word for it: an event, or the request of a signal. An event is a kind of its own and no
// missing request.
#[derive(Clone, Copy, PartialEq, Eq, Debug)]
enum Kind {
    Event,
    Signal(Request),
}

// A word that is no kind.
#[derive(Clone, Copy, PartialEq, Eq, Debug)]
struct NoKind;

impl fmt::Display for Kind {
    fn fmt<W: fmt::Write>(&self, f: &mut fmt::Formatter<W>) -> fmt::Result {
        f.write_str(match self {
            Kind::Event => "EVENT",
            Kind::Signal(Request::NoRequest) => "NR",
            Kind::Signal(Request::RplBlocked) => "NRRB",
            Kind::Signal(Request::ManualSwitch) => "MS",
            Kind::Signal(Request::SignalFail) => "SF",
            Kind::Signal(Request::ForcedSwitch) => "FS",
        })
    }
}

impl FromStr for Kind {
    type Err = NoKind;

    fn from_str(word: &str) -> Result<Kind, NoKind> {
        match word {
            "EVENT" => Ok(Kind::Event),
            "NR" => Ok(Kind::Signal(Request::NoRequest)),
            "NRRB" => Ok(Kind::Signal(Request::RplBlocked)),
            "MS" => Ok(Kind::Signal(Request::ManualSwitch)),
            "SF" => Ok(Kind::Signal(Request::SignalFail)),
            "FS" => Ok(Kind::Signal(Request::ForcedSwitch)),
            _ => Err(NoKind),
        }
    }
}

// A message as an answer tells it.
#[derive(Clone, Copy, PartialEq, Eq, Debug)]
pub struct Heard(pub Message);

impl fmt::Display for Heard {
    fn fmt<W: fmt::Write>(&self, f: &mut fmt::Formatter<W>) -> fmt::Result {
        let (kind, dnf, bpr) = match self.0.body {
            Body::Event => (Kind::Event, false, false),
            Body::Signal { request, dnf, bpr } => (Kind::Signal(request), dnf, bpr),
        };
        let dnf = u8::from(dnf);
        let bpr = u8::from(bpr);
        let id = Id(self.0.node);
        write!(f, "{kind} dnf={dnf} bpr={bpr} id={id}")
    }
}

// A bit as `0` or `1`. (A bool's own `parse` reads other words.)
fn flag_of(word: &str) -> Option<bool> {
    match word {
        "0" => Some(false),
        "1" => Some(true),
        _ => None,
    }
}

// `read RING VID HEX`, the words after `read`: the message or the refusal; none for a bad line.
pub fn answer_read(
    ring: &str,
    vid: &str,
    hex: &str,
    heap: Global,
) -> Result<Option<String>, AllocError> {
    let (Ok(ring_id), Ok(vid)) = (ring.parse(), vid.parse()) else {
        return Ok(None);
    };
    let Some(octets) = octets_of(hex, heap)? else {
        return Ok(None);
    };
    let text = match read_frame(octets.as_slice(), Channel { ring_id, vid }) {
        Ok(message) => {
            let heard = Heard(message);
            format!(in heap; "ok {heard}")?
        }
        Err(fault) => {
            let refused = Refused(fault);
            format!(in heap; "{refused}")?
        }
    };
    Ok(Some(text))
}

// What the writer is asked to write.
#[derive(Clone, Copy, PartialEq, Eq, Debug)]
struct Order {
    message: Message,
    channel: Channel,
    mel: u8,
    length: u16,
}

// ID RING VID MEL KIND DNF BPR LEN.
fn order_of(words: &[&str]) -> Option<Order> {
    let [id, ring, vid, mel, kind, dnf, bpr, length] = words else {
        return None;
    };
    let message = message_of(id, kind, dnf, bpr)?;
    Some(Order {
        message,
        channel: Channel {
            ring_id: ring.parse().ok()?,
            vid: vid.parse().ok()?,
        },
        mel: mel.parse().ok()?,
        length: length.parse().ok()?,
    })
}

fn message_of(id: &str, kind: &str, dnf: &str, bpr: &str) -> Option<Message> {
    let Id(node) = id.parse().ok()?;
    let kind = kind.parse().ok()?;
    let (dnf, bpr) = (flag_of(dnf)?, flag_of(bpr)?);
    let body = match kind {
        Kind::Event => Body::Event,
        Kind::Signal(request) => Body::Signal { request, dnf, bpr },
    };
    Some(Message { node, body })
}

// `write ID RING VID MEL KIND DNF BPR LEN`, the words after `write`: the answer, and the buffer, which was filled with AA.
pub fn answer_write(words: &[&str], heap: Global) -> Result<Option<String>, AllocError> {
    let Some(order) = order_of(words) else {
        return Ok(None);
    };
    let mut buffer = vec![in heap; 0xAAu8; usize::from(order.length)]?;
    let answer = write_frame(
        order.message,
        order.channel,
        order.mel,
        buffer.as_mut_slice(),
    );
    let hex = Hex(buffer.as_slice());
    let text = match answer {
        Ok(()) => format!(in heap; "ok buf={hex}")?,
        Err(fault) => {
            let refused = Refused(fault);
            format!(in heap; "{refused} buf={hex}")?
        }
    };
    Ok(Some(text))
}
