// The laws of a node on which the law of a ring rests, from the contracts that promise them.
ghost use Rattle.ring.specs.NodeLaws.{NodeLaws};

use node::{
    calls_keep_a_block, calls_keep_the_rules, idle_yields_to_failure, mark_means_another_owner,
    marks_follow_the_calls, own_and_events_move_no_port, rules_promise_the_ports,
};

pub(crate) fn node_laws()
    ensures { NodeLaws }
{
    calls_keep_the_rules();
    calls_keep_a_block();
    own_and_events_move_no_port();
    marks_follow_the_calls();
    rules_promise_the_ports();
    mark_means_another_owner();
    idle_yields_to_failure();
}
