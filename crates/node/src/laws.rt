// The laws of a node and worked examples: each function's contract is the theorem, proved of every node.
ghost use Rattle.std.specs.Prelude.{◌≡◌};
ghost use Rattle.node.specs.Laws.{EventChangesNoValue, FailedMarks, ForcedMarks, IdleYields, KeepsABlock, LocalReaches, MarkLaw, OwnMovesNoPort, RulesKept, RulesPromise, SettingsKept};
ghost use Rattle.node.specs.Worked.{ClearsToFailure, ForcedAtRpl, HearsNoRequest, NewOwner, RepairedOneOfTwo, WaitsToRestore};

// Every call that is taken keeps every rule of the record; none changes the settings.
#[tactic(auto, using(crate::proofs::Meaning::rules_kept, crate::proofs::Meaning::settings_kept))]
pub fn calls_keep_the_rules()
    ensures rules { RulesKept }
    ensures settings { SettingsKept }
{}

// A call that is no delivery never takes a station's last block.
#[tactic(auto, using(crate::proofs::Meaning::keeps_a_block))]
pub fn calls_keep_a_block()
    ensures { KeepsABlock }
{}

// A message with the own ID moves no port; an event changes no value of the node, it only flushes.
#[tactic(auto, using(crate::proofs::Meaning::own_moves_no_port, crate::proofs::Meaning::event_changes_no_value))]
pub fn own_and_events_move_no_port()
    ensures own { OwnMovesNoPort }
    ensures event { EventChangesNoValue }
{}

// Failed and forced marks follow the calls that are taken.
#[tactic(auto, using(crate::proofs::Meaning::failed_marks, crate::proofs::Meaning::forced_marks))]
pub fn marks_follow_the_calls()
    ensures failed { FailedMarks }
    ensures forced { ForcedMarks }
{}

// Forced ports are blocked, and failed ones outside forced switch; without the mismatch mark a sender blocks the port that
// it names, and idle means the RPL port alone, or none.
#[tactic(auto, using(crate::proofs::Meaning::rules_promise))]
pub fn rules_promise_the_ports()
    ensures { RulesPromise }
{}

// The mismatch mark is set by NR,RB of another that passes guard at an owner, and by nothing else; it stays until restart.
#[tactic(auto, using(crate::proofs::Meaning::mark_law))]
pub fn mark_means_another_owner()
    ensures { MarkLaw }
{}

// Where a local request has a row, no higher one stands.
#[tactic(auto, using(crate::proofs::Meaning::local_reaches))]
pub fn local_requests_reach_their_rows()
    ensures { LocalReaches }
{}

// An idle node that hears SF of another, past guard, opens both ports.
#[tactic(auto, using(crate::proofs::Meaning::idle_yields))]
pub fn idle_yields_to_failure()
    ensures { IdleYields }
{}

// Six worked examples.
pub fn worked_examples()
    ensures owner { NewOwner }
    ensures restores { WaitsToRestore }
    ensures forced { ForcedAtRpl }
    ensures hears { HearsNoRequest }
    ensures repaired { RepairedOneOfTwo }
    ensures cleared { ClearsToFailure }
{}
