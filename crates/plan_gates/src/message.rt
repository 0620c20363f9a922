ghost use Rattle.std.specs.Prelude.{◌≡◌, ◌<◌, ◌≤◌, ◌^◌, None, length, slice_get};
ghost use Rattle.std.specs.Option.{unwrap_or};
ghost use Rattle.mot_base.specs.Limits.{most_width};
ghost use Rattle.plan_gates.specs.Gate.{kind_of, receiver_of};
ghost use Rattle.plan_gates.specs.Messages.{words, vectors, entry_messages, table_messages, messages_of, tells_by};

use crate::draft::Sizes;
use crate::gate::GateKind;
use message_demux::Shape;
use mot_base::Party;

/// A payload that one party sends another: its length in bytes, and how they are to be read.
#[derive(Clone, Copy, Debug)]
pub struct Message {
    pub len: u32,
    pub shape: Shape,
}

/// So many words of 8 bytes.
fn words(count: u32) -> Message
    requires { count < 2 ^ 24 }
    ensures { result ≡ words count }
{
    Message {
        len: 8 * count,
        shape: Shape::Words,
    }
}

/// So many vectors of a width.
fn vectors(count: u8, width: u8) -> Message
    ensures { result ≡ vectors count width }
{
    Message {
        len: u32::from(count) * u32::from(width).div_ceil(8),
        shape: Shape::Vectors { count, width },
    }
}

/// Whether a gate tells its value to a party.
pub fn tells(kind: GateKind, party: Party) -> bool
    ensures { result ≡ tells_by party.0 (receiver_of (kind_of kind)) }
{
    match kind.receiver() {
        Some(receiver) => receiver.includes(party),
        None => false,
    }
}

/// How many rounds of messages a gate has, at most three.
pub fn rounds_of(kind: GateKind, sizes: Sizes) -> u8
    ensures value { result ≡ length (messages_of (kind_of kind) sizes 0 0) }
    ensures few { result ≤ 3 }
{
    match kind {
        GateKind::InA { .. }
        | GateKind::MulA { .. }
        | GateKind::OutA { .. }
        | GateKind::InB { .. }
        | GateKind::AndB { .. }
        | GateKind::OutB { .. }
        | GateKind::BToA { .. } => 1,
        GateKind::InOnline { .. }
        | GateKind::ShareAOnline { .. }
        | GateKind::ShareBOnline { .. }
        | GateKind::Garble { .. } => 3,
        _ => 0,
    }
}

/// What one party sends another in a round of a gate, if it sends something.
pub fn message_in(
    kind: GateKind,
    sizes: Sizes,
    from: Party,
    to: Party,
    round: u8,
) -> Option<Message>
    ensures { result ≡ unwrap_or (slice_get (messages_of (kind_of kind) sizes from.0 to.0) round) None }
{
    match kind {
        GateKind::InOnline { party, .. }
        | GateKind::ShareAOnline { party, .. }
        | GateKind::ShareBOnline { party, .. } => {
            entry_message(party, sizes.width, from, to, round)
        }
        GateKind::Garble { .. } => table_message(sizes, round),
        _ if round > 0 => None,
        GateKind::InA { party, .. } if from == party => Some(words(1)),
        GateKind::MulA { .. } => Some(words(2)),
        GateKind::OutA { to: receiver, .. } if receiver.includes(to) => Some(words(1)),
        GateKind::InB { party, .. } if from == party => Some(vectors(1, sizes.width)),
        GateKind::AndB { .. } => Some(vectors(2, sizes.width)),
        GateKind::OutB { to: receiver, .. } if receiver.includes(to) => {
            Some(vectors(1, sizes.width))
        }
        GateKind::BToA { .. } => Some(vectors(1, sizes.low)),
        _ => None,
    }
}

/// What one party sends another in a round of an entry of so many bits by a party.
fn entry_message(party: Party, width: u8, from: Party, to: Party, round: u8) -> Option<Message>
    ensures { result ≡ unwrap_or (slice_get (entry_messages party.0 width from.0 to.0) round) None }
{
    match round {
        0 if to == party => Some(vectors(1, width)),
        1 if from == party => Some(vectors(1, width)),
        2 => Some(words(2 * u32::from(width))),
        _ => None,
    }
}

/// What one party sends another in a round of a garbled table.
fn table_message(sizes: Sizes, round: u8) -> Option<Message>
    ensures { result ≡ unwrap_or (slice_get (table_messages sizes.parties sizes.width) round) None }
{
    match round {
        0 => Some(vectors(2, sizes.width)),
        1 => Some(vectors(1, sizes.width)),
        2 => Some(words(8 * u32::from(sizes.parties) * u32::from(sizes.width))),
        _ => None,
    }
}
