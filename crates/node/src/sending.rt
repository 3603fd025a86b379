// The frame request.
ghost use Rattle.std.specs.Prelude.{◌≡◌, None};
ghost use Rattle.node.specs.Calls.{due_message, frame_answer, frame_buffer, frame_values, message_sent};
ghost use Rattle.node.specs.Faults.{told_at};

use crate::faults::NodeFault;
use crate::node::Node;
use crate::ports::bpr_of;
use crate::types::{NodeValues, Settings};
use frame::{Body, FRAME_LENGTH, FrameFault, Message, write_frame};

impl NodeValues {
    // The message that a node sends: BPR follows from its ports.
    fn message_sent(self) -> Option<Message>
        ensures { result ≡ message_sent self }
    {
        let request = self.sending.request?;
        let body = Body::Signal {
            request,
            dnf: self.sending.dnf,
            bpr: bpr_of(self.blocked),
        };
        Some(Message {
            node: self.settings.id,
            body,
        })
    }

    fn due_message(self) -> Option<Message>
        ensures { result ≡ due_message self }
    {
        if self.is_due() {
            self.message_sent()
        } else {
            None
        }
    }
}

impl Node {
    // Writes the frame that is due into the buffer's first 55 octets.
    pub fn take_frame(&mut self, buffer: &mut [u8]) -> Result<(), NodeFault>
        ensures answer { told_at None result ≡ frame_answer self.old.values buffer.old }
        ensures values { self.new.values ≡ frame_values self.old.values buffer.old }
        ensures left { buffer.new ≡ frame_buffer self.old.values buffer.old }
    {
        if buffer.len() < FRAME_LENGTH {
            return Err(NodeFault::Frame(FrameFault::Buffer));
        }
        let Some(message) = self.values.due_message() else {
            return Err(NodeFault::NoFrameDue);
        };
        let Settings { channel, mel, .. } = self.values.settings;
        write_frame(message, channel, mel, buffer)?;
        self.write(self.values.frame_taken());
        Ok(())
    }
}
