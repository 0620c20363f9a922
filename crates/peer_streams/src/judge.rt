ghost use Rattle.std.specs.Prelude.{◌≡◌, ◌≢◌, ◌∷◌, ◌++◌, ◌⊎◌, List, [], Some, None, OnOk, IfErr};
ghost use Rattle.std.specs.FinMap as map;
ghost use Rattle.std.specs.Option.{option_map};
ghost use Rattle.frames.specs.declared.frame.Frame as frame_of;
ghost use Rattle.message_demux.specs.declared.slots.Slot as slot_type;
ghost use Rattle.message_demux.specs.Inbox.{refusal, missing};
ghost use Rattle.message_demux.specs.Slots.{slot_at};
ghost use Rattle.peer_streams.specs.Judging.{cause_of, cause_behind, is_begun, IsOfPeer};
ghost use Rattle.peer_streams.specs.Reading.{KeepsOf, StillKeeps};

use crate::error::PartyError;
use crate::hello::check_hello;
use frames::{Frame, Hello};
use message_demux::{Delivered, Inbox, Refused};
use mot_base::{Party, Payload};
use std::alloc::Global;

/// Judges frames of the peer of whom this Hello is expected, one behind another, and keeps their
/// messages. The gates of those that are new are added to `arrived`.
pub(crate) fn judge_all(
    alloc: Global,
    inbox: &mut Inbox,
    expected: &Hello,
    greeted: bool,
    frames: Vec<Frame>,
    arrived: &mut Vec<u32>,
) -> Result<(), PartyError>
    ensures ok { (before : List frame_of.Frame) → greeted ≡ is_begun before →
        KeepsOf inbox.old expected.now.from before →
        OnOk result ((cause_behind expected.now inbox.old.slots before frames.items ≡ None)
        × KeepsOf inbox.new expected.now.from (before ++ frames.items)) }
    ensures err { (before : List frame_of.Frame) → greeted ≡ is_begun before →
        KeepsOf inbox.old expected.now.from before →
        IfErr result (λ cause. (cause ≡ PartyError.NoMemory)
        ⊎ (cause_behind expected.now inbox.old.slots before frames.items ≡ Some cause)) }
    ensures kind { IfErr result (IsOfPeer expected.now.from) }
    ensures slots { inbox.new.slots ≡ inbox.old.slots }
    ensures still { StillKeeps inbox.old inbox.new }
    ensures others { (slot : slot_type.Slot) → slot.from ≢ expected.now.from →
        map.get inbox.new.kept slot ≡ map.get inbox.old.kept slot }
{
    let mut is_greeted = greeted;
    for frame in frames {
        match judge(alloc, inbox, expected, is_greeted, frame, arrived) {
            Ok(()) => is_greeted = true,
            Err(cause) => return Err(cause),
        }
    }
    Ok(())
}

/// Judges one frame behind others, of which the first was a Hello where the peer has greeted.
fn judge(
    alloc: Global,
    inbox: &mut Inbox,
    expected: &Hello,
    greeted: bool,
    frame: Frame,
    arrived: &mut Vec<u32>,
) -> Result<(), PartyError>
    ensures ok { (before : List frame_of.Frame) → greeted ≡ is_begun before →
        KeepsOf inbox.old expected.now.from before →
        OnOk result ((cause_of expected.now inbox.old.slots before frame ≡ None)
        × KeepsOf inbox.new expected.now.from (before ++ frame ∷ [])) }
    ensures err { (before : List frame_of.Frame) → greeted ≡ is_begun before →
        KeepsOf inbox.old expected.now.from before →
        IfErr result (λ cause. (cause ≡ PartyError.NoMemory)
        ⊎ (cause_of expected.now inbox.old.slots before frame ≡ Some cause)) }
    ensures kind { IfErr result (IsOfPeer expected.now.from) }
    ensures slots { inbox.new.slots ≡ inbox.old.slots }
    ensures still { StillKeeps inbox.old inbox.new }
    ensures others { (slot : slot_type.Slot) → slot.from ≢ expected.now.from →
        map.get inbox.new.kept slot ≡ map.get inbox.old.kept slot }
{
    let peer = expected.from;
    match frame {
        Frame::Hello(hello) => check_hello(expected, &hello),
        Frame::Message {
            gate,
            round,
            payload,
        } => {
            if !greeted {
                return Err(PartyError::HelloMissing { peer });
            }
            take_message(alloc, inbox, peer, gate, round, payload, arrived)
        }
        Frame::End => {
            if !greeted {
                return Err(PartyError::HelloMissing { peer });
            }
            check_end(inbox, peer)
        }
    }
}

/// Delivers a message of a peer.
fn take_message(
    alloc: Global,
    inbox: &mut Inbox,
    peer: Party,
    gate: u32,
    round: u8,
    payload: Payload,
    arrived: &mut Vec<u32>,
) -> Result<(), PartyError>
    ensures ok { OnOk result
        (option_map (PartyError.Refused peer) (refusal inbox.old (slot_at peer gate round) payload)
        ≡ None) }
    ensures err { IfErr result (λ cause. (cause ≡ PartyError.NoMemory)
        ⊎ (option_map (PartyError.Refused peer) (refusal inbox.old (slot_at peer gate round) payload)
        ≡ Some cause)) }
    ensures kind { IfErr result (IsOfPeer peer) }
    ensures keeps { (before : List frame_of.Frame) → KeepsOf inbox.old peer before →
        OnOk result (KeepsOf inbox.new peer (before ++ Frame.Message gate round payload ∷ [])) }
    ensures slots { inbox.new.slots ≡ inbox.old.slots }
    ensures still { StillKeeps inbox.old inbox.new }
    ensures others { (slot : slot_type.Slot) → slot.from ≢ peer →
        map.get inbox.new.kept slot ≡ map.get inbox.old.kept slot }
{
    match inbox.deliver(alloc, peer, gate, round, payload) {
        Ok(Delivered::New) => note_gate(arrived, gate),
        Ok(Delivered::Again) => Ok(()),
        Err(Refused::NoMemory) => Err(PartyError::NoMemory),
        Err(refusal) => Err(PartyError::Refused { peer, refusal }),
    }
}

/// Notes the gate of a message that is new.
fn note_gate(arrived: &mut Vec<u32>, gate: u32) -> Result<(), PartyError>
    ensures { IfErr result (λ cause. cause ≡ PartyError.NoMemory) }
{
    match arrived.push(gate) {
        Ok(()) => Ok(()),
        Err(_) => Err(PartyError::NoMemory),
    }
}

/// Whether each message of a peer came.
fn check_end(inbox: &Inbox, peer: Party) -> Result<(), PartyError>
    ensures ok { OnOk result
        (option_map (PartyError.EndEarly peer) (missing inbox.now peer.0) ≡ None) }
    ensures err { IfErr result (λ cause.
        option_map (PartyError.EndEarly peer) (missing inbox.now peer.0) ≡ Some cause) }
    ensures kind { IfErr result (IsOfPeer peer) }
{
    match inbox.missing_from(peer) {
        None => Ok(()),
        Some(slot) => Err(PartyError::EndEarly { peer, slot }),
    }
}
