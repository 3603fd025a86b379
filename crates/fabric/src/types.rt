// What every fabric shares: marks in pairs, and the refusals.
ghost use Rattle.std.specs.Prelude.{◌≡◌, Some};
ghost use Rattle.fabric.specs.Faults.{refusal};
ghost use Rattle.fabric.specs.Marks.{done_answer, port_answer, with_mark};

// A mark for each ring port: two fields and no array, so that no index can be out of range.
#[derive(Clone, Copy, PartialEq, Eq, Debug)]
pub struct Ports {
    pub p0: bool,
    pub p1: bool,
}

// What belongs to a ring port, of what is kept for each; any other number is refused.
pub(crate) fn of_port<T: Copy>(port: u8, zero: T, one: T) -> Result<T, FabricFault>
    ensures { result ≡ port_answer port zero one }
{
    match port {
        0 => Ok(zero),
        1 => Ok(one),
        _ => Err(FabricFault::NoSuchPort { port }),
    }
}

impl Ports {
    // A mark at neither port.
    pub const NONE: Ports = Ports {
        p0: false,
        p1: false,
    };

    // The mark of a ring port.
    pub fn mark(self, port: u8) -> Result<bool, FabricFault>
        ensures { result ≡ port_answer port self.p0 self.p1 }
    {
        of_port(port, self.p0, self.p1)
    }

    // Sets or clears the mark of a ring port.
    pub fn set_mark(&mut self, port: u8, on: bool) -> Result<(), FabricFault>
        ensures answer { result ≡ done_answer port }
        ensures after { self.new ≡ with_mark self.old port on }
    {
        *self = of_port(port, Ports { p0: on, ..*self }, Ports { p1: on, ..*self })?;
        Ok(())
    }
}

// Why a fabric refuses a call; specs/Faults.antt has each one's number and place.
#[derive(Clone, Copy, PartialEq, Eq, Debug)]
pub enum FabricFault {
    NoSuchPort { port: u8 },
    OnBlocked { port: u8 },
    TableFull { port: u8 },
}

impl FabricFault {
    // The number of the refusal: no conversion, since it loses the port.
    pub fn number(self) -> u8
        ensures value { result ≡ (refusal self).number }
    {
        match self {
            FabricFault::NoSuchPort { .. } => 8,
            FabricFault::OnBlocked { .. } => 19,
            FabricFault::TableFull { .. } => 20,
        }
    }

    // The port that the refused call named.
    pub fn port(self) -> u8
        ensures value { Some result ≡ (refusal self).port }
    {
        match self {
            FabricFault::NoSuchPort { port }
            | FabricFault::OnBlocked { port }
            | FabricFault::TableFull { port } => port,
        }
    }
}
