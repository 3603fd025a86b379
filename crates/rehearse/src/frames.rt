// Shows a frame of the ring: written, read back, and refused when damaged.
use frame::{Body, Channel, FRAME_LENGTH, Message, NodeId, Request, read_frame, write_frame};
use script::{Heard, Hex, Refused};
use std::io;

const CHANNEL: Channel = Channel {
    ring_id: 1,
    vid: 100,
};

const MEL: u8 = 7;

// The fields of a frame: where each begins and ends, and its name.
const FIELDS: [(usize, usize, &str); 14] = [
    (0, 6, "destination, ending in the ring ID"),
    (6, 12, "source: the Node ID"),
    (12, 14, "tag"),
    (14, 16, "priority 7, VID"),
    (16, 18, "EtherType"),
    (18, 19, "MEL, version 1"),
    (19, 20, "OpCode"),
    (20, 21, "flags"),
    (21, 22, "TLV offset"),
    (22, 23, "request, sub-code 0"),
    (23, 24, "status: RB, DNF, BPR, five zero bits"),
    (24, 30, "Node ID"),
    (30, 54, "reserved"),
    (54, 55, "End TLV"),
];

// The frame's octets, a field to a line.
fn show(rt: &HostRuntime, frame: &[u8; FRAME_LENGTH]) -> io::Result<()> {
    for (from, to, name) in FIELDS {
        if let Some(octets) = frame.get(from..to) {
            let octets = Hex(octets);
            println!(rt; "  {from:2}  {octets}  {name}")?;
        }
    }
    Ok(())
}

// What the reader makes of a frame.
fn hear(rt: &HostRuntime, frame: &[u8; FRAME_LENGTH]) -> io::Result<()> {
    match read_frame(frame, CHANNEL) {
        Ok(message) => {
            let heard = Heard(message);
            println!(rt; "  ok {heard}")
        }
        Err(fault) => {
            let refused = Refused(fault);
            println!(rt; "  {refused}")
        }
    }
}

pub(crate) fn show_frame(rt: &HostRuntime) -> io::Result<()> {
    let message = Message {
        node: NodeId {
            octets: [0x00, 0x00, 0x5E, 0x00, 0x53, 0x01],
        },
        body: Body::Signal {
            request: Request::SignalFail,
            dnf: false,
            bpr: true,
        },
    };
    let mut frame = [0; FRAME_LENGTH];
    if let Err(fault) = write_frame(message, CHANNEL, MEL, &mut frame) {
        let refused = Refused(fault);
        return println!(rt; "{refused}");
    }
    println!(rt; "Station 00005E005301 reports a failure at its port 1: ring 1, VID 100, MEL 7.")?;
    show(rt, &frame)?;
    println!(rt; "Read back:")?;
    hear(rt, &frame)?;
    println!(rt; "With octet 13, the tag's second, damaged:")?;
    frame[13] = 0x01;
    hear(rt, &frame)
}
