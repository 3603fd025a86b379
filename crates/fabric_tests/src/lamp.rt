// The smallest fabric: a lamp for each mark.
use fabric::{Fabric, FabricFault, Ports};

#[derive(Clone, Copy, PartialEq, Eq, Debug)]
pub struct LampFabric {
    pub blocked: Ports,
    pub taught: Ports,
}

impl Fabric for LampFabric {
    ghost marks = { λ f. record { blocked = f.blocked; taught = f.taught } };

    fn is_blocked(&self, port: u8) -> Result<bool, FabricFault> {
        self.blocked.mark(port)
    }

    fn is_taught(&self, port: u8) -> Result<bool, FabricFault> {
        self.taught.mark(port)
    }

    fn block(&mut self, port: u8) -> Result<(), FabricFault> {
        self.blocked.set_mark(port, true)
    }

    fn open(&mut self, port: u8) -> Result<(), FabricFault> {
        self.blocked.set_mark(port, false)
    }

    fn flush(&mut self) {
        self.taught = Ports::NONE;
    }
}
