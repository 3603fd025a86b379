// The calls of a node, over any fabric. A node holds no fabric: the caller owns it and lends it to each call, with the port. A port is a number here, since any other number has a refusal of its own.
ghost use Rattle.std.specs.Prelude.{◌≡◌, ℕ, true, if◌then◌else◌, Some, None, Ok, Err, IfOk, Option, Result};
ghost use Rattle.node.specs.Calls.{Leaves, SetUp, Stepped, admitted, clear_step, cleared, deliver_step, fail_step, force_step, given_step, in_step, manual_step, message_step, outcome, question, repair_step, restart_step, set_up_marks, status_of, step_at, switched, taken, takes_clear, takes_manual, tick_step};
ghost use Rattle.node.specs.Faults.{told_at};
ghost use Rattle.node.specs.Ports.{port_number};
ghost use Rattle.node.specs.Rules.{makes_node, settings_ok};
ghost use Rattle.node.specs.declared.faults.NodeFault.TheVariants.{NotNow, NothingToClear};

use crate::check::settings_ok;
use crate::drive::drive;
use crate::faults::NodeFault;
use crate::node::Node;
use crate::ports::some;
use crate::types::{NodeValues, Outcome, Port, Role, Settings, State, Status};
use fabric::{Fabric, Ports};
use frame::{Message, read_frame};

impl NodeValues {
    // (By a pattern: two states are plainer so than by two `==`.)
    fn takes_manual(self) -> bool
        ensures { result ≡ takes_manual self }
    {
        matches!(self.state, State::Idle | State::Pending)
    }

    fn takes_clear(self) -> bool
        ensures { result ≡ takes_clear self }
    {
        let at_owner = match self.state {
            State::Idle | State::Protection | State::Pending => {
                self.settings.role == Role::Owner
            }
            State::ManualSwitch | State::ForcedSwitch => false,
        };
        some(self.commands.forced) || self.commands.manual.is_some() || at_owner
    }

    // What MS at a port gives, and Clear: each is refused where it is not taken.
    fn switched(self, port: Port) -> Result<Outcome, NodeFault>
        ensures { result ≡ (if takes_manual self then Ok (outcome (switched port) self) else Err (NotNow (port_number port))) }
    {
        self.takes_manual()
            .then(|| self.settle(self.manual_row(port)))
            .ok_or(NodeFault::NotNow {
                port: u8::from(port),
            })
    }

    fn cleared(self) -> Result<Outcome, NodeFault>
        ensures { result ≡ (if takes_clear self then Ok (outcome cleared self) else Err NothingToClear) }
    {
        self.takes_clear()
            .then(|| self.settle(self.clear_row()))
            .ok_or(NodeFault::NothingToClear)
    }
}

impl Node {
    // The one place where a node's values change. That they make a node is asked of plain values here, in `commit`, `take` and
    // `take_at`, and carried by no type: the type that carries it is `Node` itself, which is made anew at the end of a call.
    #[tactic(auto, using(crate::proofs::Lawful::parts))]
    pub(crate) fn write(&mut self, values: NodeValues)
        requires { makes_node values ≡ true }
        ensures { self.new.values ≡ values }
    {
        self.values = values;
    }

    // Writes what a call gave, and drives the fabric to it.
    fn commit<F: Fabric>(&mut self, fabric: &mut F, o: Outcome)
        requires { makes_node o.values ≡ true }
        ensures { Leaves F.marks F.kept (taken (F.marks fabric.old) o) fabric.old fabric.new self.new.values }
    {
        drive(fabric, o.values.blocked, o.flush);
        self.write(o.values);
    }

    // Commits what a call gives, unless the node is out of step with the fabric or the call is refused by a rule of its own.
    // What it gives is worked out only in step: so a call out of step costs at most two questions to the fabric.
    fn take<F: Fabric, G: FnOnce(NodeValues) -> Result<Outcome, NodeFault>>(
        &mut self,
        fabric: &mut F,
        give: G,
    ) -> Result<(), NodeFault>
        requires callable { G.pre give self.old.values }
        requires lawful { (r : Result Outcome NodeFault) → G.post give self.old.values r → IfOk r (λ o. makes_node o.values ≡ true) }
        ensures { (called : Option ℕ) (given : Result Outcome NodeFault) → ((r : Result Outcome NodeFault) → G.post give self.old.values r → r ≡ given) → Stepped F.marks F.kept called (given_step self.old.values (F.marks fabric.old) called (in_step self.old.values.blocked (F.marks fabric.old).blocked) given) fabric.old fabric.new result self.new.values }
    {
        self.values.in_step(fabric)?;
        let o = give(self.values)?;
        self.commit(fabric, o);
        Ok(())
    }

    // Runs the row of a call at a port, and takes what it gives: a call that is refused only at no port or out of step.
    fn take_at<F: Fabric, R: FnOnce(NodeValues, Port) -> Outcome>(
        &mut self,
        fabric: &mut F,
        port: u8,
        row: R,
    ) -> Result<(), NodeFault>
        requires callable { R.IsAlwaysCallable row }
        requires lawful { (q : Port) (o : Outcome) → R.post row self.old.values q o → makes_node o.values ≡ true }
        ensures { (f : Port → Outcome) → ((q : Port) (o : Outcome) → R.post row self.old.values q o → o ≡ f q) → Stepped F.marks F.kept (Some port) (step_at self.old.values (F.marks fabric.old) port (admitted self.old.values (F.marks fabric.old) port) (λ q. taken (F.marks fabric.old) (f q))) fabric.old fabric.new result self.new.values }
    {
        let at = Port::try_from(port)?;
        self.take(fabric, |values| Ok(row(values, at)))
    }

    // A new node on these settings: Start runs, and drives the fabric.
    pub fn set_up<F: Fabric>(settings: Settings, fabric: &mut F) -> Result<Node, NodeFault>
        ensures answer { SetUp settings result }
        ensures marks { F.marks fabric.new ≡ (if settings_ok settings then set_up_marks settings (F.marks fabric.old) else F.marks fabric.old) }
        ensures kept { F.kept fabric.new ≡ F.kept fabric.old }
        ensures untouched { (e : NodeFault) → result ≡ Err e → fabric.new ≡ fabric.old }
    {
        if !settings_ok(settings) {
            return Err(NodeFault::Settings);
        }
        let values = settings.started(Ports::NONE);
        drive(fabric, values.blocked, false);
        Ok(Node { values })
    }

    // Forced switch (FS) at a port.
    pub fn force<F: Fabric>(&mut self, fabric: &mut F, port: u8) -> Result<(), NodeFault>
        ensures { Stepped F.marks F.kept (Some port) (force_step self.old.values (F.marks fabric.old) port) fabric.old fabric.new result self.new.values }
    {
        self.take_at(
            fabric,
            port,
            |values, at| values.settle(values.force_row(at)),
        )
    }

    // Manual switch (MS) at a port.
    pub fn switch<F: Fabric>(&mut self, fabric: &mut F, port: u8) -> Result<(), NodeFault>
        ensures { Stepped F.marks F.kept (Some port) (manual_step self.old.values (F.marks fabric.old) port) fabric.old fabric.new result self.new.values }
    {
        let at = Port::try_from(port)?;
        self.take(fabric, |values| values.switched(at))
    }

    // Clear: ends the commands, or has a waiting owner rest.
    pub fn clear<F: Fabric>(&mut self, fabric: &mut F) -> Result<(), NodeFault>
        ensures { Stepped F.marks F.kept None (clear_step self.old.values (F.marks fabric.old)) fabric.old fabric.new result self.new.values }
    {
        self.take(fabric, |values| values.cleared())
    }

    // A failure at a port.
    pub fn fail<F: Fabric>(&mut self, fabric: &mut F, port: u8) -> Result<(), NodeFault>
        ensures { Stepped F.marks F.kept (Some port) (fail_step self.old.values (F.marks fabric.old) port) fabric.old fabric.new result self.new.values }
    {
        self.take_at(
            fabric,
            port,
            |values, at| values.settle(values.fail_row(at)),
        )
    }

    // The repair of a port.
    pub fn repair<F: Fabric>(&mut self, fabric: &mut F, port: u8) -> Result<(), NodeFault>
        ensures { Stepped F.marks F.kept (Some port) (repair_step self.old.values (F.marks fabric.old) port) fabric.old fabric.new result self.new.values }
    {
        self.take_at(
            fabric,
            port,
            |values, at| values.settle(values.repair_row(at)),
        )
    }

    // One tick of 10 ms.
    pub fn tick<F: Fabric>(&mut self, fabric: &mut F) -> Result<(), NodeFault>
        ensures { Stepped F.marks F.kept None (tick_step self.old.values (F.marks fabric.old)) fabric.old fabric.new result self.new.values }
    {
        self.take(fabric, |values| {
            Ok(values.lowered().settle(values.tick_row()))
        })
    }

    // Start again: settings and failures stay.
    pub fn restart<F: Fabric>(&mut self, fabric: &mut F)
        ensures { Leaves F.marks F.kept (restart_step self.old.values (F.marks fabric.old)) fabric.old fabric.new self.new.values }
    {
        let o = self.values.restarted();
        self.commit(fabric, o);
    }

    // What this frame says to this node at this port; changes nothing.
    pub fn question<F: Fabric>(
        &self,
        fabric: &F,
        port: u8,
        octets: &[u8],
    ) -> Result<Message, NodeFault>
        ensures { told_at (Some port) result ≡ question self.now.values (F.marks fabric.now) port octets.now }
    {
        Port::try_from(port)?;
        self.values.in_step(fabric)?;
        Ok(read_frame(octets, self.values.settings.channel)?)
    }

    // Takes a message that was read.
    pub fn take_message<F: Fabric>(
        &mut self,
        fabric: &mut F,
        port: u8,
        message: Message,
    ) -> Result<(), NodeFault>
        ensures { Stepped F.marks F.kept (Some port) (message_step self.old.values (F.marks fabric.old) port message) fabric.old fabric.new result self.new.values }
    {
        self.take_at(fabric, port, |values, at| values.after_message(at, message))
    }

    // A frame at a port: the question, then the message.
    pub fn deliver<F: Fabric>(
        &mut self,
        fabric: &mut F,
        port: u8,
        octets: &[u8],
    ) -> Result<(), NodeFault>
        ensures { Stepped F.marks F.kept (Some port) (deliver_step self.old.values (F.marks fabric.old) port octets.now) fabric.old fabric.new result self.new.values }
    {
        let message = self.question(fabric, port, octets)?;
        self.take_message(fabric, port, message)
    }

    // All that the node holds but the flush pairs.
    pub fn status(&self) -> Status
        ensures { result ≡ status_of self.now.values }
    {
        let NodeValues {
            settings,
            state,
            blocked,
            failed,
            commands,
            sending,
            timers,
            due,
            mismatch,
            ..
        } = self.values;
        Status {
            state,
            role: settings.role,
            rpl: settings.rpl,
            revertive: settings.revertive,
            blocked,
            failed,
            forced: commands.forced,
            manual: commands.manual,
            sent: sending.request,
            dnf: sending.dnf,
            mismatch,
            timers,
            due,
        }
    }
}
