// Where a fabric is asked and driven: the one place for each.
ghost use Rattle.std.specs.Prelude.{◌≡◌};
ghost use Rattle.fabric.specs.Marks.{with_blocked};
ghost use Rattle.node.specs.Calls.{driven, in_step, in_step_at};
ghost use Rattle.node.specs.Ports.{at, port_number};

use crate::faults::NodeFault;
use crate::ports::at;
use crate::types::{NodeValues, Port};
use fabric::{Fabric, Ports};

fn is_blocked<F: Fabric>(fabric: &F, port: Port) -> bool
    ensures { result ≡ at (F.marks fabric.now).blocked port }
{
    fabric.is_blocked(u8::from(port)).unwrap_or(false)
}

impl NodeValues {
    fn in_step_at<F: Fabric>(self, fabric: &F, port: Port) -> Result<(), NodeFault>
        ensures { result ≡ in_step_at self.blocked (F.marks fabric.now).blocked port }
    {
        if at(self.blocked, port) == is_blocked(fabric, port) {
            Ok(())
        } else {
            Err(NodeFault::OutOfStep { port })
        }
    }

    // Refusal 9 unless the fabric's blocked marks are the node's.
    pub(crate) fn in_step<F: Fabric>(self, fabric: &F) -> Result<(), NodeFault>
        ensures { result ≡ in_step self.blocked (F.marks fabric.now).blocked }
    {
        self.in_step_at(fabric, Port::Zero)?;
        self.in_step_at(fabric, Port::One)
    }
}

fn drive_port<F: Fabric>(fabric: &mut F, port: Port, blocked: bool)
    ensures marks { F.marks fabric.new ≡ with_blocked (F.marks fabric.old) (port_number port) blocked }
    ensures kept { F.kept fabric.new ≡ F.kept fabric.old }
{
    let number = u8::from(port);
    let _ = if blocked {
        fabric.block(number)
    } else {
        fabric.open(number)
    };
}

pub(crate) fn drive<F: Fabric>(fabric: &mut F, blocked: Ports, flush: bool)
    ensures marks { F.marks fabric.new ≡ driven (F.marks fabric.old) blocked flush }
    ensures kept { F.kept fabric.new ≡ F.kept fabric.old }
{
    drive_port(fabric, Port::Zero, blocked.p0);
    drive_port(fabric, Port::One, blocked.p1);
    if flush {
        fabric.flush();
    }
}
