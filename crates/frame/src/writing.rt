// Writing a frame.
ghost use Rattle.std.specs.Prelude.{◌≡◌, ℕ, ◌<◌, true, List, Ok};
ghost use Rattle.frame.specs.Faults.{told};
ghost use Rattle.frame.specs.Ids.{id_in_range};
ghost use Rattle.frame.specs.Reading.{reading};
ghost use Rattle.frame.specs.Refusals.{gave};
ghost use Rattle.frame.specs.Requests.{coded};
ghost use Rattle.frame.specs.Rewriting.{Rewritten};
ghost use Rattle.frame.specs.Writing.{frame_octets, head_octets, in_range, request_octet, status_octet, writing, written};

use super::types::{Body, Channel, EVENT, FRAME_LENGTH, FrameFault, Message, NodeId, Request};

// Writes the message's frame into the buffer's first 55 octets; a refusal leaves the buffer as it was.
// The MEL stands beside the channel and not in it, since the reader looks at no MEL.
pub fn write_frame(
    message: Message,
    channel: Channel,
    mel: u8,
    buffer: &mut [u8],
) -> Result<(), FrameFault>
    ensures answer { told result ≡ writing message channel mel buffer.old }
    ensures left { buffer.new ≡ written message channel mel buffer.old }
    ensures readable { result ≡ Ok tt → reading buffer.new channel ≡ gave message }
    ensures rewritten { result ≡ Ok tt → (f : List ℕ) → reading f channel ≡ gave message → Rewritten f mel buffer.new }
{
    if !is_in_range(message.node, channel, mel) {
        return Err(FrameFault::Settings);
    }
    if buffer.len() < FRAME_LENGTH {
        return Err(FrameFault::Buffer);
    }
    buffer[0..FRAME_LENGTH].copy_from_slice(&frame_octets(message, channel, mel));
    Ok(())
}

// Whether a frame can carry these settings.
pub fn is_in_range(node: NodeId, channel: Channel, mel: u8) -> bool
    ensures { result ≡ in_range node channel mel }
{
    is_station(node)
        && (1..=239).contains(&channel.ring_id)
        && (1..=4094).contains(&channel.vid)
        && mel <= 7
}

// Whether an ID can be a station's: not zero, and its first octet even.
fn is_station(node: NodeId) -> bool
    ensures { result ≡ id_in_range node }
{
    1 <= u64::from(node) && node.octets[0] % 2 == 0
}

// The 55 octets of the message's frame: what follows the Node ID is zero.
#[tactic(auto, unfolding(crate::specs::Writing::frame_octets))]
fn frame_octets(message: Message, channel: Channel, mel: u8) -> [u8; FRAME_LENGTH]
    requires { (channel.vid < 4096) × (mel < 8) }
    ensures { result ≡ frame_octets message channel mel }
{
    let mut octets = [0; FRAME_LENGTH];
    octets[..30].copy_from_slice(&head_octets(message, channel, mel));
    octets
}

// The octets up to the Node ID's end.
#[tactic(auto, unfolding(crate::specs::Writing::head_octets))]
fn head_octets(message: Message, channel: Channel, mel: u8) -> [u8; 30]
    requires { (channel.vid < 4096) × (mel < 8) }
    ensures { result ≡ head_octets message channel mel }
{
    let [a, b, c, d, e, f] = message.node.octets;
    let [vid_high, vid_low] = channel.vid.to_be_bytes();
    let request = request_octet(message.body);
    let status = status_octet(message.body);
    let level = mel * 32 + 1;
    [
        0x01,
        0x19,
        0xA7,
        0x00,
        0x00,
        channel.ring_id,
        a,
        b,
        c,
        d,
        e,
        f,
        0x81,
        0x00,
        0xE0 + vid_high,
        vid_low,
        0x89,
        0x02,
        level,
        0x28,
        0x00,
        0x20,
        request,
        status,
        a,
        b,
        c,
        d,
        e,
        f,
    ]
}

fn request_octet(body: Body) -> u8
    ensures { result ≡ request_octet body }
{
    match body {
        Body::Event => EVENT * 16,
        Body::Signal { request, .. } => code_of(request) * 16,
    }
}

fn status_octet(body: Body) -> u8
    ensures { result ≡ status_octet body }
{
    match body {
        Body::Event => 0,
        Body::Signal { request, dnf, bpr } => {
            u8::from(has_rb(request)) * 128 + u8::from(dnf) * 64 + u8::from(bpr) * 32
        }
    }
}

// Half of what a request is on the wire; RB is the other half, so neither is a conversion.
fn code_of(request: Request) -> u8
    ensures { result ≡ (coded request).code }
{
    match request {
        Request::NoRequest | Request::RplBlocked => 0,
        Request::ManualSwitch => 7,
        Request::SignalFail => 11,
        Request::ForcedSwitch => 13,
    }
}

fn has_rb(request: Request) -> bool
    ensures { result ≡ (coded request).rb }
{
    request == Request::RplBlocked
}
