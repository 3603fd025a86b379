// One ring switch.
#![tactic(auto)]

mod calls;
mod check;
mod claims;
mod drive;
mod faults;
mod laws;
mod node;
mod numbers;
mod ports;
mod receiving;
mod rows;
mod sending;
mod settings;
mod settling;
mod starts;
mod types;

pub use check::settings_ok;
pub use faults::NodeFault;
pub use laws::{
    calls_keep_a_block, calls_keep_the_rules, idle_yields_to_failure,
    local_requests_reach_their_rows, mark_means_another_owner, marks_follow_the_calls,
    own_and_events_move_no_port, rules_promise_the_ports, worked_examples,
};
pub use node::Node;
pub use settling::sent_number;
pub use types::{Commands, Due, NodeValues, Port, Role, Sending, Settings, State, Status, Timers};
