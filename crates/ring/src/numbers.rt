// What a ring's refusal tells: number and octet of its cause, and the port that it is to name; its places stand beside it.
// None is a conversion, since each alone loses the others.
ghost use Rattle.std.specs.Prelude.{◌≡◌, ℕ, Option};
ghost use Rattle.ring.specs.Faults.{cause_at};

use crate::faults::RingFault;

impl RingFault {
    pub fn number(self) -> u8
        ensures { (p : Option ℕ) → result ≡ (cause_at p self).number }
    {
        match self {
            RingFault::Count => 14,
            RingFault::Unlawful => 15,
            RingFault::NoStation => 16,
            RingFault::Unnamed => 17,
            RingFault::NotOwner => 18,
            RingFault::Node(fault) => fault.number(),
        }
    }

    pub fn octet(self) -> Option<usize>
        ensures { (p : Option ℕ) → result ≡ (cause_at p self).octet }
    {
        match self {
            RingFault::Node(fault) => fault.octet(),
            _ => None,
        }
    }

    // Given the port that the call names.
    pub(crate) fn port(self, called: Option<u8>) -> Option<u8>
        ensures { result ≡ (cause_at called self).port }
    {
        match self {
            RingFault::Count | RingFault::Unlawful | RingFault::NoStation => None,
            RingFault::Unnamed | RingFault::NotOwner => called,
            RingFault::Node(fault) => fault.port(called),
        }
    }
}
