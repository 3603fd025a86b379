// What a frame of the ring carries, and why one is refused.

// The length of a frame, from the destination address to the End TLV.
pub const FRAME_LENGTH: usize = 55;

// The request code of an event.
pub(crate) const EVENT: u8 = 14;

// The 48-bit number of a station: six octets, the first highest. (Octets lie in arrays of a fixed length: no heap is used.)
#[derive(Clone, Copy, Debug)]
pub struct NodeId {
    pub octets: [u8; 6],
}

// What a station asks of the ring. RplBlocked is NR with the RB bit: the ring protection link is blocked.
#[derive(Clone, Copy, PartialEq, Eq, Debug)]
pub enum Request {
    NoRequest,
    RplBlocked,
    ManualSwitch,
    SignalFail,
    ForcedSwitch,
}

// A signal repeats a station's request with two bits: DNF (do not flush) and BPR (the blocked port is port 1).
// An event only asks to flush, and has no bits: so no message can hold what no frame can carry. It is a message of its own
// kind and no missing signal, so this is no Option.
#[derive(Clone, Copy, PartialEq, Eq, Debug)]
pub enum Body {
    Event,
    Signal {
        request: Request,
        dnf: bool,
        bpr: bool,
    },
}

#[derive(Clone, Copy, PartialEq, Eq, Debug)]
pub struct Message {
    pub node: NodeId,
    pub body: Body,
}

// Where a ring's frames go: the ring ID ends the destination address, the VID stands in the tag.
#[derive(Clone, Copy, PartialEq, Eq, Debug)]
pub struct Channel {
    pub ring_id: u8,
    pub vid: u16,
}

// Why the reader or the writer refuses; specs/Faults.antt has each one's number and place.
#[derive(Clone, Copy, PartialEq, Eq, Debug)]
pub enum FrameFault {
    Short { length: usize },
    Header { octet: usize },
    OpCode,
    TlvOffset,
    Reserved,
    TlvEnd,
    Buffer,
    Settings,
}
