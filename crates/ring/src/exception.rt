// The exception in the law of runs is real.
ghost use Rattle.ring.specs.Exception.{ExceptionIsReal, ExceptionOccurs};

use crate::resting::node_laws;

// In an idle ring without neighbour an owner past guard takes SF of another station that does not send it, and no port is
// blocked after it. There is such a ring, and such a frame.
pub fn the_exception_is_real()
    ensures real { ExceptionIsReal }
    ensures occurs { ExceptionOccurs }
{
    node_laws();
}
