// A third fabric, a generic caller, and examples.
#![tactic(auto)]

mod change;
mod lamp;
#[cfg(test)]
mod tests;

pub use change::hand_over;
pub use lamp::LampFabric;
