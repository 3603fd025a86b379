// Reading a frame.
ghost use Rattle.std.specs.Prelude.{◌≡◌, ℕ, ◌≤◌, Bool, List, length, drop, if◌then◌else◌, Ok, Err, nat_eq, slice_index};
ghost use Rattle.frame.specs.declared.types.FrameFault.TheVariants.{Header};
ghost use Rattle.frame.specs.Faults.{told};
ghost use Rattle.frame.specs.Reading.{bit, body_of, body_reading, first_difference, header_reading, pdu_reading, reading, request_of};

use super::types::{Body, Channel, EVENT, FRAME_LENGTH, FrameFault, Message, NodeId, Request};

const OPCODE: u8 = 0x28;

// The least TLV offset: the 32 octets of the R-APS data.
const LEAST_TLV_OFFSET: u8 = 32;

// The message of a frame, or why it is refused. Nothing past octet 54 is looked at but the frame's length.
pub fn read_frame(frame: &[u8], channel: Channel) -> Result<Message, FrameFault>
    ensures { told result ≡ reading frame.now channel }
{
    if frame.len() < FRAME_LENGTH {
        return Err(FrameFault::Short {
            length: frame.len(),
        });
    }
    check_header(frame, channel)?;
    read_pdu(&frame[18..])
}

// The destination, the tag, the VID and the EtherType are the channel's.
fn check_header(frame: &[u8], channel: Channel) -> Result<(), FrameFault>
    requires { 55 ≤ length frame.now }
    ensures { told result ≡ header_reading (first_difference frame.now channel) }
{
    let [vid_high, vid_low] = channel.vid.to_be_bytes();
    expect(0, frame[0], 0x01)?;
    expect(1, frame[1], 0x19)?;
    expect(2, frame[2], 0xA7)?;
    expect(3, frame[3], 0x00)?;
    expect(4, frame[4], 0x00)?;
    expect(5, frame[5], channel.ring_id)?;
    expect(12, frame[12], 0x81)?;
    expect(13, frame[13], 0x00)?;
    expect(14, frame[14] % 16, vid_high)?;
    expect(15, frame[15], vid_low)?;
    expect(16, frame[16], 0x89)?;
    expect(17, frame[17], 0x02)
}

fn expect(octet: usize, found: u8, wanted: u8) -> Result<(), FrameFault>
    ensures { result ≡ (if nat_eq found wanted then Ok tt else Err (Header octet)) }
{
    if found == wanted {
        Ok(())
    } else {
        Err(FrameFault::Header { octet })
    }
}

// What the PDU says: its header of four octets, then the rest.
fn read_pdu(pdu: &[u8]) -> Result<Message, FrameFault>
    requires { 37 ≤ length pdu.now }
    ensures { (f : List ℕ) → drop 18 f ≡ pdu.now → told result ≡ pdu_reading f }
{
    let [_level, opcode, _flags, tlv_offset, data @ ..] = pdu else {
        unreachable()
    };
    if *opcode != OPCODE {
        return Err(FrameFault::OpCode);
    }
    if *tlv_offset < LEAST_TLV_OFFSET {
        return Err(FrameFault::TlvOffset);
    }
    read_data(*tlv_offset, data)
}

// What the octets after the PDU's header say.
fn read_data(tlv_offset: u8, data: &[u8]) -> Result<Message, FrameFault>
    requires { 33 ≤ length «data».now }
    ensures { (f : List ℕ) → drop 22 f ≡ «data».now → slice_index f 21 ≡ tlv_offset → told result ≡ body_reading f (body_of (slice_index f 22) (slice_index f 23)) }
{
    let Some(body) = body_of(data[0], data[1]) else {
        return Err(FrameFault::Reserved);
    };
    if data.len() <= usize::from(tlv_offset) {
        return Err(FrameFault::TlvEnd);
    }
    let node = NodeId {
        octets: [data[2], data[3], data[4], data[5], data[6], data[7]],
    };
    Ok(Message { node, body })
}

// What the request octet and the status octet say together; none for a reserved request. (Of two octets, so no `TryFrom`.)
fn body_of(request: u8, status: u8) -> Option<Body>
    ensures { result ≡ body_of request status }
{
    if request / 16 == EVENT {
        return (request % 16 == 0).then_some(Body::Event);
    }
    let request = request_of(request / 16, is_set(status, 128))?;
    Some(Body::Signal {
        request,
        dnf: is_set(status, 64),
        bpr: is_set(status, 32),
    })
}

// Whether the bit of this weight is set.
fn is_set(octet: u8, weight: u8) -> bool
    requires { 1 ≤ weight }
    ensures { result ≡ bit weight octet }
{
    octet / weight % 2 == 1
}

// The request that a code of four bits names, given the RB bit, without which the code says too little for a `TryFrom`.
fn request_of(code: u8, rb: bool) -> Option<Request>
    ensures { result ≡ request_of code rb }
{
    match code {
        0 if rb => Some(Request::RplBlocked),
        0 => Some(Request::NoRequest),
        7 => Some(Request::ManualSwitch),
        11 => Some(Request::SignalFail),
        13 => Some(Request::ForcedSwitch),
        _ => None,
    }
}
