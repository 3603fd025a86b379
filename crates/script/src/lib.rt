// The lines of a script and the lines that answer them.
#![tactic(auto)]

mod frames;
mod refusals;
mod words;

pub use frames::{Heard, answer_read, answer_write};
pub use refusals::{Refusal, Refused};
pub use words::{Hex, Id, NoId, octets_of};
