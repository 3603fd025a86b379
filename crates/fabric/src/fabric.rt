// What a port fabric means to a ring: four marks, and the calls that ask for them and change them.
ghost use Rattle.std.specs.Prelude.{◌≡◌, ℕ, List, []};
ghost use Rattle.fabric.specs.Marks.{Marks, blocked_answer, taught_answer, done_answer, after_block, after_open, after_flush};

use super::types::FabricFault;

// Ring ports are 0 and 1. A port is a number here, and in the layers above, because any other number has a refusal of its
// own, and changes nothing.
pub trait Fabric {
    // What the fabric means.
    ghost marks: { Self → Marks };

    // What no call of this trait ever changes; empty unless a maker says more.
    ghost kept: { Self → List (List ℕ) } = { λ _. [] };

    // Whether the port is blocked.
    fn is_blocked(&self, port: u8) -> Result<bool, FabricFault>
        ensures answer { result ≡ blocked_answer (marks self.now) port };

    // Whether addresses learned at the port stand.
    fn is_taught(&self, port: u8) -> Result<bool, FabricFault>
        ensures answer { result ≡ taught_answer (marks self.now) port };

    // Blocks the port.
    fn block(&mut self, port: u8) -> Result<(), FabricFault>
        ensures answer { result ≡ done_answer port }
        ensures after { marks self.new ≡ after_block (marks self.old) port }
        ensures same { kept self.new ≡ kept self.old };

    // Opens the port.
    fn open(&mut self, port: u8) -> Result<(), FabricFault>
        ensures answer { result ≡ done_answer port }
        ensures after { marks self.new ≡ after_open (marks self.old) port }
        ensures same { kept self.new ≡ kept self.old };

    // Forgets what was learned at both ring ports.
    fn flush(&mut self)
        ensures after { marks self.new ≡ after_flush (marks self.old) }
        ensures same { kept self.new ≡ kept self.old };
}
