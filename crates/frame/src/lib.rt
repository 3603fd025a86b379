// R-APS frames after ITU-T G.8032: their types, the reader, the writer, and the choice of the highest.
#![tactic(auto)]

mod choice;
mod faults;
mod ids;
mod reading;
mod types;
mod worked;
mod writing;

pub use choice::{Ranked, highest};
pub use ids::highest_id;
pub use reading::read_frame;
pub use types::{Body, Channel, FRAME_LENGTH, FrameFault, Message, NodeId, Request};
pub use worked::worked_frame;
pub use writing::{is_in_range, write_frame};
