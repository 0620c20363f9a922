//! What a stage sends, and what a task carries from stage to stage.

ghost use Rattle.std.specs.Prelude.{◌≡◌, ◌++◌, [], IfOk, OnOk};

use mot_base::{NoMemory, Party, Payload};
use std::alloc::Global;
use std::marker::Model;

/// A message that a party has to send.
#[derive(Debug, Drop)]
pub struct Out {
    pub to: Party,
    pub gate: u32,
    pub round: u8,
    pub payload: Payload,
}

/// The messages that a stage has to send, by round and then by receiver.
#[derive(Debug, Drop)]
pub struct Outs {
    outs: Vec<Out>,
}

impl Model for Outs {
    ghost use Rattle.std.specs.Prelude.{List};
    ghost use Rattle.gate_tasks.specs.declared.outgoing.Out.{Out};

    ghost Value = { List Out };

    ghost view = { λ o. o.outs.items };
}

impl Outs {
    /// These messages.
    pub fn new(outs: Vec<Out>) -> Outs
        ensures { result ≡ outs.items }
    {
        Outs { outs }
    }

    /// No messages. It takes no memory.
    pub fn none(alloc: Global) -> Outs
        ensures { result ≡ [] }
    {
        Outs {
            outs: Vec::new(alloc),
        }
    }

    /// Adds messages behind those that there are.
    pub fn append(&mut self, more: Outs) -> Result<(), NoMemory>
        ensures { OnOk result (self.new ≡ self.old ++ more) }
    {
        let mut behind = more.outs;
        self.outs.append(&mut behind)?;
        Ok(())
    }

    /// The messages, in order.
    pub fn as_slice(&self) -> &[Out]
        ensures { result.now ≡ self.entry.now }
    {
        self.outs.as_slice()
    }

    /// The messages as a vector, without taking memory.
    pub fn into_vec(self) -> Vec<Out>
        ensures { result.items ≡ self }
    {
        self.outs
    }
}

/// What a task carries from stage to stage: for each round in order in which the party formed a payload, that payload.
#[derive(Debug, Drop)]
pub struct Carried {
    payloads: Vec<Payload>,
}

impl Model for Carried {
    ghost use Rattle.std.specs.Prelude.{ℕ, List};

    ghost Value = { List (List ℕ) };

    ghost view = { λ c. c.payloads.items };
}

impl Carried {
    /// These payloads.
    pub fn new(payloads: Vec<Payload>) -> Carried
        ensures { result ≡ payloads.items }
    {
        Carried { payloads }
    }

    /// The payloads, in order.
    pub fn as_slice(&self) -> &[Payload]
        ensures { result.now ≡ self.entry.now }
    {
        self.payloads.as_slice()
    }

    /// The payloads as a vector, without taking memory.
    pub fn into_vec(self) -> Vec<Payload>
        ensures { result.items ≡ self }
    {
        self.payloads
    }

    /// Another one that is the same.
    pub fn copy(&self, alloc: Global) -> Result<Carried, NoMemory>
        ensures { IfOk result (λ copy. copy ≡ self.now) }
    {
        let mut payloads = Vec::with_capacity(alloc, self.payloads.len())?;
        for payload in &self.payloads {
            payloads.push(payload.copy(alloc)?)?;
        }
        Ok(Carried { payloads })
    }
}
