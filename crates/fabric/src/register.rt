// A fabric in one word of 32 bits: the four marks in the top bits, the other 28 bits the host's.
// The host sets the taught bits as it learns; here they are read, and cleared by flush.
ghost use Rattle.std.specs.Prelude.{◌≡◌, ◌<◌, true, false};
ghost use Rattle.fabric.specs.Marks.{done_answer, after_block, after_open, after_flush, with_blocked};
ghost use Rattle.fabric.specs.Register.{bit, with_bit, word_marks, host_bits, word_with_blocked, word_after_flush};

use super::fabric::Fabric;
use super::types::{FabricFault, of_port};

#[derive(Clone, Copy, PartialEq, Eq, Debug)]
pub struct RegisterFabric {
    pub word: u32,
}

// The places of the marks, counted from the least significant bit.
const BLOCKED_0: u32 = 31;

const BLOCKED_1: u32 = 30;

const TAUGHT_0: u32 = 29;

const TAUGHT_1: u32 = 28;

// Whether the bit at a place is set.
fn has_bit(word: u32, place: u32) -> bool
    requires { place < 32 }
    ensures { result ≡ bit word place }
{
    (word >> place) % 2 == 1
}

// The word with the bit at a place set or cleared.
fn with_bit(word: u32, place: u32, on: bool) -> u32
    requires { place < 32 }
    ensures { result ≡ with_bit word place on }
{
    let weight = 1 << place;
    if on { word | weight } else { word & !weight }
}

impl RegisterFabric {
    // Sets or clears the blocked bit of a port.
    fn mark_blocked(&mut self, port: u8, on: bool) -> Result<(), FabricFault>
        ensures answer { result ≡ done_answer port }
        ensures exact { self.new.word ≡ word_with_blocked self.old.word port on }
        ensures after { word_marks self.new.word ≡ with_blocked (word_marks self.old.word) port on }
        ensures same { host_bits self.new.word ≡ host_bits self.old.word }
    {
        let place = of_port(port, BLOCKED_0, BLOCKED_1)?;
        self.word = with_bit(self.word, place, on);
        Ok(())
    }
}

// A method with a clause of its own repeats those of the trait, as the language asks.
impl Fabric for RegisterFabric {
    ghost marks = { λ f. word_marks f.word };

    ghost kept = { λ f. host_bits f.word };

    fn is_blocked(&self, port: u8) -> Result<bool, FabricFault> {
        Ok(has_bit(self.word, of_port(port, BLOCKED_0, BLOCKED_1)?))
    }

    fn is_taught(&self, port: u8) -> Result<bool, FabricFault> {
        Ok(has_bit(self.word, of_port(port, TAUGHT_0, TAUGHT_1)?))
    }

    fn block(&mut self, port: u8) -> Result<(), FabricFault>
        ensures answer { result ≡ done_answer port }
        ensures after { word_marks self.new.word ≡ after_block (word_marks self.old.word) port }
        ensures same { host_bits self.new.word ≡ host_bits self.old.word }
        ensures exact { self.new.word ≡ word_with_blocked self.old.word port true }
    {
        self.mark_blocked(port, true)
    }

    fn open(&mut self, port: u8) -> Result<(), FabricFault>
        ensures answer { result ≡ done_answer port }
        ensures after { word_marks self.new.word ≡ after_open (word_marks self.old.word) port }
        ensures same { host_bits self.new.word ≡ host_bits self.old.word }
        ensures exact { self.new.word ≡ word_with_blocked self.old.word port false }
    {
        self.mark_blocked(port, false)
    }

    fn flush(&mut self)
        ensures after { word_marks self.new.word ≡ after_flush (word_marks self.old.word) }
        ensures same { host_bits self.new.word ≡ host_bits self.old.word }
        ensures exact { self.new.word ≡ word_after_flush self.old.word }
    {
        self.word = with_bit(with_bit(self.word, TAUGHT_0, false), TAUGHT_1, false);
    }
}
