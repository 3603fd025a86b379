// A node: values that keep every rule.
ghost use Rattle.std.specs.Prelude.{◌≡◌, true};
ghost use Rattle.node.specs.Rules.{burst_ok, failed_ok, forced_ok, idle_ok, sending_ok, settings_ok, timers_ok};

use crate::types::NodeValues;

// Each ghost is one rule of specs/Rules.antt, so no node can be made or left that breaks one.
#[derive(Clone, Copy, PartialEq, Eq, Debug)]
pub struct Node {
    pub values: NodeValues,
    ghost settings: { settings_ok values.settings ≡ true },
    ghost failed: { failed_ok values.state values.blocked values.failed ≡ true },
    ghost forced: { forced_ok values.state values.blocked values.commands ≡ true },
    ghost sending: { sending_ok values.settings.role values.state values.blocked values.failed values.commands values.sending values.mismatch ≡ true },
    ghost burst: { burst_ok values.sending values.due ≡ true },
    ghost timers: { timers_ok values.settings.role values.settings.revertive values.state values.timers ≡ true },
    ghost idle: { idle_ok values.settings.role values.settings.rpl values.state values.blocked values.mismatch ≡ true },
}
