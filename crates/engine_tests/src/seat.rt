//! A party of a run that is handed over payload by payload.

ghost use Rattle.std.specs.Prelude.{ℕ, IfOk};
ghost use Rattle.gate_tasks.specs.Task.{ExpectsAll};

use dealer_files::DealerPart;
use gate_plan::Plan;
use gate_tasks::{Env, GateTask, Out, Outs, Own, StageEnv, Step, Value, Wires};
use message_demux::{Delivered, Inbox};
use mot_base::Party;
use std::alloc::Global;
use std::marker::Model;
use std::process::Abort;
use std::test::Fail;

/// A party with its values so far and what came to it.
#[derive(Drop)]
pub(crate) struct Seat<'r> {
    plan: &'r Plan,
    own: &'r Own,
    part: &'r DealerPart,
    wires: Wires<Value>,
    inbox: Inbox,
}

impl<'r> Model for Seat<'r> {
    ghost use Rattle.std.specs.Prelude.{◌≡◌, ℕ, length};
    ghost use Rattle.gate_tasks.specs.Task.{ExpectsAll};

    ghost Value = { ℕ };

    ghost view = { λ s. s.own.now.me.0 };

    ghost invariant = { λ s. (length s.wires ≡ length s.plan.now.gates)
        × ((g : ℕ) → ExpectsAll s.plan.now s.own.now.me.0 g s.inbox) };
}

impl<'r> Seat<'r> {
    /// A party that has no value yet, and to which nothing came.
    pub(crate) fn new(
        alloc: Global,
        plan: &'r Plan,
        own: &'r Own,
        part: &'r DealerPart,
    ) -> Result<Seat<'r>, Fail> {
        let inbox = inbox_of(alloc, plan, own.me)?;
        let wires = Wires::new(alloc, plan.gates())?;
        Ok(Seat {
            plan,
            own,
            part,
            wires,
            inbox,
        })
    }

    /// Which party it is.
    pub(crate) fn party(&self) -> Party {
        self.own.me
    }

    /// The value of a gate, if there is one yet.
    pub(crate) fn value(&self, gate: u32) -> Option<&Value> {
        self.wires.get(gate)
    }

    /// Takes a message, which did not come before.
    pub(crate) fn deliver(
        &mut self,
        rt: &impl Abort,
        alloc: Global,
        from: Party,
        out: &Out,
    ) -> Result<(), Fail> {
        let payload = out.payload.copy(alloc)?;
        let delivered = self
            .inbox
            .deliver(alloc, from, out.gate, out.round, payload)?;
        assert!(rt; delivered == Delivered::New);
        Ok(())
    }

    /// Polls a task, keeps the value that it may give, and answers what it sends.
    pub(crate) fn poll(
        &mut self,
        rt: &impl Abort,
        alloc: Global,
        task: &mut GateTask,
    ) -> Result<Outs, Fail> {
        let env = Env {
            plan: self.plan,
            own: self.own,
            part: self.part,
            wires: &self.wires,
            inbox: &self.inbox,
        };
        let step = polled(rt, alloc, task, &env)?;
        match step {
            Step::NotYet(_) => Ok(Outs::new(Vec::new(alloc))),
            Step::Sent(outs) => Ok(outs),
            Step::Done(value, outs) => {
                self.keep(rt, task.gate(), value);
                Ok(outs)
            }
        }
    }

    /// Keeps the value of a gate.
    pub(crate) fn keep(&mut self, rt: &impl Abort, gate: u32, value: Value) {
        assert!(rt; gate < self.plan.gates());
        assert!(rt; self.wires.get(gate).is_none());
        self.wires.set(gate, value);
    }
}

/// An inbox for all messages to a party.
fn inbox_of(alloc: Global, plan: &Plan, me: Party) -> Result<Inbox, Fail>
    ensures { IfOk result (λ inbox. (g : ℕ) → ExpectsAll plan.now me.0 g inbox) }
{
    let slots = plan.slots_to(alloc, me)?;
    let inbox = Inbox::new(alloc, slots)?;
    Ok(inbox)
}

/// How a task answers whose conditions hold.
fn polled(rt: &impl Abort, alloc: Global, task: &mut GateTask, env: &Env) -> Result<Step, Fail>
    requires { (g : ℕ) → ExpectsAll env.now.plan.now env.now.own.now.me.0 g env.now.inbox.now }
{
    let place = StageEnv {
        plan: env.plan,
        own: env.own,
        part: env.part,
        gate: task.gate(),
    };
    assert!(rt; place.serves() && env.holds_types(task.gate()));
    assert!(rt; task.stage() < env.plan.stages(env.own.me, task.gate()));
    Ok(task.poll(alloc, env)?)
}
