ghost use Rattle.std.specs.Prelude.{◌≡◌, ◌<◌, ◌≤◌, length, option_map, slice_get, Some, IfOk};
ghost use Rattle.plan_gates.specs.Messages.{message, hears, rounds, stages, awaits, sent_in, tells, outputs_of, AreSlotsTo};

use crate::message::{Message, message_in, rounds_of, tells};
use crate::plan::Plan;
use message_demux::SlotSpec;
use mot_base::{NoMemory, Party};
use std::alloc::Global;

impl Plan {
    /// The length in bytes of what one party sends another in a round of a gate, and none exactly where it sends
    /// nothing.
    pub fn slot(&self, sender: Party, receiver: Party, gate: u32, round: u8) -> Option<u32>
        requires { gate < length self.now.gates }
        ensures { result ≡ option_map (λ m. m.len) (message self.now sender.0 receiver.0 gate round) }
    {
        let message = self.message(sender, receiver, gate, round)?;
        Some(message.len)
    }

    /// The message of a slot, if there is one.
    fn message(&self, from: Party, to: Party, gate: u32, round: u8) -> Option<Message>
        requires { gate < length self.now.gates }
        ensures { result ≡ message self.now from.0 to.0 gate round }
    {
        if from.0 < self.parties() && to.0 < self.parties() && from != to {
            message_in(self.gate(gate), self.draft.sizes(gate), from, to, round)
        } else {
            None
        }
    }

    /// How many rounds of messages a gate has, at most three.
    pub fn rounds(&self, gate: u32) -> u8
        requires { gate < length self.now.gates }
        ensures value { result ≡ rounds self.now gate }
        ensures few { result ≤ 3 }
    {
        rounds_of(self.gate(gate), self.draft.sizes(gate))
    }

    /// Whether some party sends this one a message in a round of a gate.
    pub fn hears(&self, party: Party, gate: u32, round: u8) -> bool
        requires { gate < length self.now.gates }
        ensures { result ≡ hears self.now party.0 gate round }
    {
        for from in 0..self.parties() {
            if self.message(Party(from), party, gate, round).is_some() {
                return true;
            }
        }
        false
    }

    /// How many stages a gate has at a party: one that waits for no message, and one for each round in which the party
    /// receives.
    pub fn stages(&self, party: Party, gate: u32) -> u8
        requires { gate < length self.now.gates }
        ensures { result ≡ stages self.now party.0 gate }
    {
        let mut stages = 1;
        for round in 0..self.rounds(gate) {
            if self.hears(party, gate, round) {
                stages += 1;
            }
        }
        stages
    }

    /// The round whose messages a stage of a gate waits for at a party. Stage 0 waits for none.
    pub fn awaits(&self, party: Party, gate: u32, stage: u8) -> Option<u8>
        requires { gate < length self.now.gates }
        ensures { result ≡ awaits self.now party.0 gate stage }
    {
        if stage == 0 {
            return None;
        }
        let mut reached = 0;
        for round in 0..self.rounds(gate) {
            if !self.hears(party, gate, round) {
                continue;
            }
            reached += 1;
            if reached == stage {
                return Some(round);
            }
        }
        None
    }

    /// The stage of a gate in which a party sends a round: it has received in as many of the rounds before.
    pub fn sent_in(&self, sender: Party, gate: u32, round: u8) -> u8
        requires { gate < length self.now.gates }
        ensures value { result ≡ sent_in self.now sender.0 gate round }
        ensures few { result ≤ round }
    {
        let mut stage = 0;
        for before in 0..round {
            if self.hears(sender, gate, before) {
                stage += 1;
            }
        }
        stage
    }

    /// Whether a gate tells its value to a party.
    pub fn tells(&self, party: Party, gate: u32) -> bool
        requires { gate < length self.now.gates }
        ensures { option_map (tells party.0) (slice_get self.now.gates gate) ≡ Some result }
    {
        tells(self.gate(gate), party)
    }

    /// How many output gates tell a party, or all.
    pub fn outputs_of(&self, party: Party) -> u32
        ensures { result ≡ outputs_of self.now party.0 }
    {
        let mut count = 0;
        for gate in 0..self.gates() {
            if self.tells(party, gate) {
                count += 1;
            }
        }
        count
    }

    /// All messages to a party, in the order of their senders, gates and rounds.
    pub fn slots_to(&self, alloc: Global, receiver: Party) -> Result<Vec<SlotSpec>, NoMemory>
        ensures { IfOk result (λ slots. AreSlotsTo self.now receiver.0 slots.items) }
    {
        let mut slots = Vec::new(alloc);
        for sender in 0..self.parties() {
            self.push_slots(&mut slots, Party(sender), receiver)?;
        }
        Ok(slots)
    }
}

impl Plan {
    ghost use Rattle.std.specs.Prelude.{◌≡◌, ◌<◌, ◌++◌, length, OnOk};
    ghost use Rattle.plan_gates.specs.Messages.{rounds, slots_in, slots_from};

    /// Adds all messages of one party to another at the end.
    fn push_slots(
        &self,
        slots: &mut Vec<SlotSpec>,
        sender: Party,
        receiver: Party,
    ) -> Result<(), NoMemory>
        ensures { OnOk result (slots.new.items
            ≡ slots.old.items ++ slots_from self.now sender.0 receiver.0 (length self.now.gates)) }
    {
        for gate in 0..self.gates() {
            self.push_slots_at(slots, sender, receiver, gate)?;
        }
        Ok(())
    }

    /// Adds the messages of one party to another at a gate at the end.
    fn push_slots_at(
        &self,
        slots: &mut Vec<SlotSpec>,
        sender: Party,
        receiver: Party,
        gate: u32,
    ) -> Result<(), NoMemory>
        requires { gate < length self.now.gates }
        ensures { OnOk result (slots.new.items
            ≡ slots.old.items ++ slots_in self.now sender.0 receiver.0 gate (rounds self.now gate)) }
    {
        for round in 0..self.rounds(gate) {
            if let Some(message) = self.message(sender, receiver, gate, round) {
                slots.push(SlotSpec {
                    from: sender,
                    gate,
                    round,
                    len: message.len,
                    shape: message.shape,
                })?;
            }
        }
        Ok(())
    }
}
