ghost use Rattle.std.specs.Prelude.{◌≡◌, ◌<◌, ◌≤◌, ◌⊎◌, ℕ, length, slice_index_or, Some, None, IfOk, IfErr, IfSome, OnErr};
ghost use Rattle.std.specs.FinMap as map;
ghost use Rattle.std.specs.List.{sum_by};
ghost use Rattle.std.specs.Option.{option_copied};
ghost use Rattle.message_demux.specs.declared.slots.SlotSpec.{SlotSpec};
ghost use Rattle.message_demux.specs.Fit.{Fits, unfit};
ghost use Rattle.message_demux.specs.Inbox.{empty_inbox, with_payload, refusal, differs, kept_before, after, is_missing, missing, kept_bytes};
ghost use Rattle.message_demux.specs.Slots.{slot_at, IsPlaceOf, IsSlotSpec, IsSlotList};

use crate::slots::{Slot, SlotSpec, has_high_bits, place_of};
use mot_base::{NoMemory, Party, Payload};
use std::alloc::Global;
use std::marker::Model;
use thiserror::Error;

/// What became of a message that was not refused.
#[derive(Clone, Copy, Debug, PartialEq, Eq)]
pub enum Delivered {
    /// Its payload is kept.
    New,
    /// The same payload was kept before.
    Again,
}

/// Why a message is refused.
#[derive(Debug, Drop, Error)]
pub enum Refused {
    #[error("no message of this gate and round is expected from this party")]
    UnknownSlot(Slot),
    #[error("the payload has {found} bytes, and not {want}")]
    PayloadLength {
        slot: Slot,
        want: u32,
        found: u32,
    },
    #[error("a vector of the payload has a bit at or above its width")]
    HighBits(Slot),
    #[error("another payload came before for the same message")]
    RepeatDiffers {
        slot: Slot,
        kept: Payload,
        found: Payload,
    },
    #[error("memory ran out")]
    NoMemory,
}

impl From<NoMemory> for Refused {
    ghost use Rattle.std.specs.Prelude.{◌≡◌};
    ghost use Rattle.message_demux.specs.declared.inbox.Refused.TheVariants.{NoMemory};

    ghost from_gives = { λ _ cause. cause ≡ NoMemory };

    fn from(_error: NoMemory) -> Refused {
        Refused::NoMemory
    }
}

/// The messages that a party expects, with the payload of each that came.
#[derive(Debug, Drop)]
pub struct Inbox {
    specs: Vec<SlotSpec>,
    payloads: Vec<Option<Payload>>,
    bytes: u64,
}

impl Model for Inbox {
    ghost use Rattle.message_demux.specs.Kept.{InboxContents, contents_code, kept_of, IsInbox};

    ghost Value = { InboxContents };

    ghost coded = { contents_code };

    ghost view = { λ inbox. record {
      slots = inbox.specs.items;
      kept = kept_of inbox.specs.items inbox.payloads.items;
    } };

    ghost invariant = { λ inbox. IsInbox inbox.specs.items inbox.payloads.items inbox.bytes };
}

impl Inbox {
    /// An inbox that keeps nothing yet. The list is in the order of its slots, and has no slot twice.
    pub fn new(alloc: Global, slots: Vec<SlotSpec>) -> Result<Inbox, NoMemory>
        requires { IsSlotList slots.items }
        ensures { IfOk result (λ inbox. inbox ≡ empty_inbox slots.items) }
    {
        let mut payloads = Vec::with_capacity(alloc, slots.len())?;
        for _ in 0..slots.len() {
            payloads.push(None)?;
        }
        Ok(Inbox {
            specs: slots,
            payloads,
            bytes: 0,
        })
    }

    /// Takes a message. It is refused by the first cause in the order of `Refused`, and a refusal
    /// changes nothing. Of a payload of 2^32 bytes or more the greatest `u32` is told as its length.
    pub fn deliver(
        &mut self,
        alloc: Global,
        from: Party,
        gate: u32,
        round: u8,
        payload: Payload,
    ) -> Result<Delivered, Refused>
        ensures refused { let slot = slot_at from gate round in
            IfErr result (λ cause.
            (cause ≡ Refused.NoMemory) ⊎ (refusal self.old slot payload ≡ Some cause)) }
        ensures accepted { let slot = slot_at from gate round in
            IfOk result (λ delivered. refusal self.old slot payload ≡ None) }
        ensures before { let slot = slot_at from gate round in
            IfOk result (λ delivered. map.get self.old.kept slot ≡ kept_before delivered payload) }
        ensures after { let slot = slot_at from gate round in
            IfOk result (λ delivered. self.new ≡ after delivered self.old slot payload) }
        ensures unchanged { OnErr result (self.new ≡ self.old) }
    {
        let slot = Slot { from, gate, round };
        let Some(place) = place_of(&self.specs, slot) else {
            return Err(Refused::UnknownSlot(slot));
        };
        fit(&self.specs[place], payload.bytes())?;
        if let Some(kept) = &self.payloads[place] {
            return repeat(alloc, slot, kept, payload);
        }
        self.bytes += payload.bytes().len() as u64;
        self.payloads[place] = Some(payload);
        Ok(Delivered::New)
    }

    /// The payload that is kept for a slot.
    pub fn get(&self, slot: Slot) -> Option<&Payload>
        ensures is { option_copied result ≡ map.get self.entry.now.kept slot }
        ensures fits { IfSome result (λ payload. Fits self.entry.now.slots slot payload.now) }
    {
        let place = place_of(&self.specs, slot)?;
        self.payloads[place].as_ref()
    }

    /// Where a slot stands in the list of expected messages, if it does.
    pub fn place(&self, slot: Slot) -> Option<u32>
        ensures { IsPlaceOf self.now.slots slot result }
    {
        let place = place_of(&self.specs, slot)?;
        Some(place as u32)
    }

    /// The first slot of a sender for which nothing is kept.
    pub fn missing_from(&self, peer: Party) -> Option<Slot>
        ensures { result ≡ missing self.now peer.0 }
    {
        for (place, spec) in self.specs.iter().enumerate() {
            if self.is_missing(place, peer) {
                return Some(spec.slot());
            }
        }
        None
    }

    /// Whether the expected message at a place is the sender's, and did not come.
    fn is_missing(&self, place: usize, peer: Party) -> bool
        requires { place < length self.now.slots }
        ensures { (d : SlotSpec)
            → result ≡ is_missing self.now peer.0 (slice_index_or self.now.slots place d) }
    {
        let is_empty = self.payloads[place].is_none();
        self.specs[place].from == peer && is_empty
    }

    /// How many bytes the kept payloads have together.
    pub fn kept(&self) -> u64
        ensures is { result ≡ kept_bytes self.now }
        ensures most { result ≤ sum_by (λ spec. spec.len) self.now.slots }
    {
        self.bytes
    }
}

/// The answer to a payload for a slot for which one is kept.
fn repeat(alloc: Global, slot: Slot, kept: &Payload, found: Payload) -> Result<Delivered, Refused>
    ensures same { IfOk result (λ delivered. (delivered ≡ Delivered.Again) × (kept.now ≡ found)) }
    ensures refused { IfErr result (λ cause.
        (cause ≡ Refused.NoMemory) ⊎ (differs slot found (Some kept.now) ≡ Some cause)) }
{
    if kept.bytes() == found.bytes() {
        return Ok(Delivered::Again);
    }
    let kept = kept.copy(alloc)?;
    Err(Refused::RepeatDiffers { slot, kept, found })
}

/// Whether a payload fits an expected message.
fn fit(spec: &SlotSpec, payload: &[u8]) -> Result<(), Refused>
    requires { IsSlotSpec spec.now }
    ensures refused { IfErr result (λ cause. unfit spec.now payload.now ≡ Some cause) }
    ensures fits { IfOk result (λ done. unfit spec.now payload.now ≡ None) }
{
    let slot = spec.slot();
    if payload.len() as u64 != u64::from(spec.len) {
        return Err(Refused::PayloadLength {
            slot,
            want: spec.len,
            found: u32::try_from(payload.len()).unwrap_or(u32::MAX),
        });
    }
    if has_high_bits(spec.shape, payload) {
        return Err(Refused::HighBits(slot));
    }
    Ok(())
}
