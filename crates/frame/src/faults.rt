// What a refusal tells: its number, and the octet that decided. Neither is a conversion, since each alone loses the other.
ghost use Rattle.std.specs.Prelude.{◌≡◌};
ghost use Rattle.frame.specs.Faults.{refusal};

use super::types::FrameFault;

impl FrameFault {
    pub fn number(self) -> u8
        ensures { result ≡ (refusal self).number }
    {
        match self {
            FrameFault::Short { .. } => 1,
            FrameFault::Header { .. } => 2,
            FrameFault::OpCode => 3,
            FrameFault::TlvOffset => 4,
            FrameFault::Reserved => 5,
            FrameFault::TlvEnd => 6,
            FrameFault::Buffer => 7,
            FrameFault::Settings => 13,
        }
    }

    // Of a short frame its length; the writer's refusals have none.
    pub fn octet(self) -> Option<usize>
        ensures { result ≡ (refusal self).octet }
    {
        match self {
            FrameFault::Short { length } => Some(length),
            FrameFault::Header { octet } => Some(octet),
            FrameFault::OpCode => Some(19),
            FrameFault::TlvOffset | FrameFault::TlvEnd => Some(21),
            FrameFault::Reserved => Some(22),
            FrameFault::Buffer | FrameFault::Settings => None,
        }
    }
}
