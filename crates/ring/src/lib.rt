// Stations in a row that the caller owns.
#![tactic(auto)]

mod acting;
mod calls;
mod delivery;
mod distinct;
mod exception;
mod faults;
mod lawful;
mod numbers;
mod opening;
mod resting;
mod settled;
mod setup;
mod station;
mod surviving;
mod ticking;

pub use calls::{clear, deliver, fail, force, repair, restart, status, switch, take_frame, tick};
pub use exception::the_exception_is_real;
pub use faults::{RingFault, RingRefusal};
pub use setup::set_up;
pub use station::Station;
pub use surviving::survivor;
pub use ticking::ticks;
