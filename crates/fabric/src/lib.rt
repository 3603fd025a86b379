// What switches: a port fabric means four marks, and two fabrics that keep them.
#![tactic(auto)]

mod fabric;
mod records;
mod register;
mod table;
mod types;

pub use fabric::Fabric;
pub use register::RegisterFabric;
pub use table::{Address, Record, Side, TableFabric};
pub use types::{FabricFault, Ports};
