// A caller that is proved from the trait's contract alone, so it holds of every fabric.
ghost use Rattle.std.specs.Prelude.{◌≡◌};
ghost use Rattle.fabric_tests.specs.Change.{change_answer, after_change};

use fabric::{Fabric, FabricFault};

// Moves the block from one ring port to the other, and forgets what was learned.
// A wrong port is refused before anything changes.
pub fn hand_over<F: Fabric>(fabric: &mut F, from: u8, to: u8) -> Result<(), FabricFault>
    ensures answer { result ≡ change_answer from to }
    ensures after { F.marks fabric.new ≡ after_change (F.marks fabric.old) from to }
    ensures same { F.kept fabric.new ≡ F.kept fabric.old }
{
    fabric.is_blocked(from)?;
    fabric.block(to)?;
    fabric.open(from)?;
    fabric.flush();
    Ok(())
}
