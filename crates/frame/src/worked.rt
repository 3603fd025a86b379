// The worked example of the frame format.
ghost use Rattle.std.specs.Prelude.{◌≡◌};
ghost use Rattle.frame.specs.Worked.{WorkedFrame, worked_channel, worked_message};
ghost use Rattle.frame.specs.Writing.{frame_octets};

use super::types::{Body, Channel, FRAME_LENGTH, Message, NodeId, Request};
use super::writing::write_frame;

// SF with BPR 1 from 00-00-5E-00-53-01, on ring 1 and VID 100, at MEL 7.
#[tactic(auto, unfolding(crate::specs::Writing::frame_octets, crate::specs::Writing::head_octets, crate::specs::Ids::id_number))]
pub fn worked_frame() -> [u8; FRAME_LENGTH]
    ensures octets { result ≡ frame_octets worked_message worked_channel 7 }
    ensures worked { WorkedFrame }
{
    let message = Message {
        node: NodeId {
            octets: [0x00, 0x00, 0x5E, 0x00, 0x53, 0x01],
        },
        body: Body::Signal {
            request: Request::SignalFail,
            dnf: false,
            bpr: true,
        },
    };
    let channel = Channel {
        ring_id: 1,
        vid: 100,
    };
    let mut buffer = [0; FRAME_LENGTH];
    let _ = write_frame(message, channel, 7, &mut buffer);
    buffer
}
