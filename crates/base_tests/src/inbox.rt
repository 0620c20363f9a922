//! An inbox, and how it answers what a party sends.
ghost use Rattle.std.specs.Prelude.{◌≡◌};

use message_demux::{Delivered, Inbox, Refused, Shape, Slot, SlotSpec};
use mot_base::{NoMemory, Party, Payload};
use std::alloc::{AllocError, Global};

fn expected(gate: u32, len: u32, shape: Shape) -> SlotSpec
    ensures { result ≡ record { from = record { 0 = 1 }; gate = gate; round = 0; len = len; shape = shape } }
{
    SlotSpec {
        from: Party(1),
        gate,
        round: 0,
        len,
        shape,
    }
}

// what party 0 expects in the run that multiplies two words
fn of_words(alloc: Global) -> Result<Inbox, NoMemory> {
    let slots = vec![in alloc;
        expected(1, 8, Shape::Words),
        expected(2, 16, Shape::Words),
        expected(3, 8, Shape::Words),
    ]?;
    Inbox::new(alloc, slots)
}

fn of_vectors(alloc: Global) -> Result<Inbox, NoMemory> {
    let slots = vec![in alloc;
        expected(1, 1, Shape::Vectors { count: 1, width: 4 }),
        expected(2, 4, Shape::Vectors { count: 2, width: 9 }),
        expected(
            3,
            8,
            Shape::Vectors {
                count: 1,
                width: 64
            }
        ),
        expected(
            4,
            16,
            Shape::Vectors {
                count: 2,
                width: 63
            }
        ),
    ]?;
    Inbox::new(alloc, slots)
}

/// What becomes of a message of a gate.
enum Answer {
    New,
    Again,
    Unknown,
    // the length that is wanted, and the one that is found
    Length(u32, u32),
    HighBits,
    // the payload that is kept, and the one that is found
    Differs(&'static [u8], &'static [u8]),
}

fn is_length(answer: &Answer, want: u32, found: u32) -> bool {
    match answer {
        Answer::Length(wanted, there) => *wanted == want && *there == found,
        _ => false,
    }
}

fn is_difference(answer: &Answer, kept: &[u8], found: &[u8]) -> bool {
    match answer {
        Answer::Differs(first, second) => *first == kept && *second == found,
        _ => false,
    }
}

fn is_refusal(refused: &Refused, gate: u32, answer: &Answer) -> bool {
    match refused {
        Refused::UnknownSlot(slot) => slot.gate == gate && matches!(answer, Answer::Unknown),
        Refused::PayloadLength { slot, want, found } => {
            slot.gate == gate && is_length(answer, *want, *found)
        }
        Refused::HighBits(slot) => slot.gate == gate && matches!(answer, Answer::HighBits),
        Refused::RepeatDiffers { slot, kept, found } => {
            slot.gate == gate && is_difference(answer, kept.bytes(), found.bytes())
        }
        Refused::NoMemory => false,
    }
}

fn is_answer(seen: &Result<Delivered, Refused>, gate: u32, answer: &Answer) -> bool {
    match seen {
        Ok(Delivered::New) => matches!(answer, Answer::New),
        Ok(Delivered::Again) => matches!(answer, Answer::Again),
        Err(refused) => is_refusal(refused, gate, answer),
    }
}

// delivers a payload in round 0
fn deliver(
    alloc: Global,
    inbox: &mut Inbox,
    from: Party,
    gate: u32,
    bytes: &[u8],
) -> Result<Result<Delivered, Refused>, AllocError> {
    let payload = Payload::new(Vec::from_slice(alloc, bytes)?);
    Ok(inbox.deliver(alloc, from, gate, 0, payload))
}

// whether a payload from party 1 is answered so
fn is_answered(alloc: Global, inbox: &mut Inbox, gate: u32, bytes: &[u8], answer: &Answer) -> bool {
    match deliver(alloc, inbox, Party(1), gate, bytes) {
        Ok(seen) => is_answer(&seen, gate, answer),
        Err(_) => false,
    }
}

// the number of the first message with another answer
fn wrong_answer(alloc: Global, inbox: &mut Inbox, rows: &[(u32, &[u8], Answer)]) -> Option<usize> {
    for (at, (gate, bytes, answer)) in rows.iter().enumerate() {
        if !is_answered(alloc, inbox, *gate, bytes, answer) {
            return Some(at);
        }
    }
    None
}

// the same, or the number of all where so many bytes are not kept in the end
fn wrong_kept(
    alloc: Global,
    inbox: &mut Inbox,
    rows: &[(u32, &[u8], Answer)],
    bytes: u64,
) -> Option<usize> {
    let wrong = wrong_answer(alloc, inbox, rows);
    if wrong.is_none() && inbox.kept() != bytes {
        return Some(rows.len());
    }
    wrong
}

// a gate, a payload, and what comes of it, one after another
static WORDS: [(u32, &[u8], Answer); 9] = [
    (0, b"aaaaaaaa", Answer::Unknown),
    (0, b"", Answer::Unknown),
    (2, b"aaaaaaaaaaaaaaa", Answer::Length(16, 15)),
    (2, b"aaaaaaaaaaaaaaaa", Answer::New),
    (2, b"aaaaaaaaaaaaaaaa", Answer::Again),
    (
        2,
        b"aaaaaaaaaaaaaaab",
        Answer::Differs(b"aaaaaaaaaaaaaaaa", b"aaaaaaaaaaaaaaab"),
    ),
    (2, b"aaaaaaaaaaaaaaaa", Answer::Again),
    (2, b"", Answer::Length(16, 0)),
    (3, b"cccccccc", Answer::New),
];

#[test]
fn an_inbox_answers_each_message_by_what_it_expects_and_keeps(rt: HostRuntime) {
    let wrong = match of_words(rt.alloc()) {
        Ok(mut inbox) => wrong_kept(rt.alloc(), &mut inbox, &WORDS, 24),
        Err(_) => Some(0),
    };
    assert!(rt; wrong.is_none(), "row {wrong:?}");
}

// the slot of a gate for party 1
fn slot_of(gate: u32) -> Slot {
    Slot {
        from: Party(1),
        gate,
        round: 0,
    }
}

fn is_missing(inbox: &Inbox, gate: Option<u32>) -> bool {
    match (inbox.missing_from(Party(1)), gate) {
        (Some(slot), Some(gate)) => slot == slot_of(gate),
        (None, None) => true,
        _ => false,
    }
}

// a gate, its payload, and the gate that is missing next, one after another
static ARRIVING: [(u32, &[u8], Option<u32>); 3] = [
    (2, b"bbbbbbbbbbbbbbbb", Some(1)),
    (1, b"aaaaaaaa", Some(3)),
    (3, b"aaaaaaaa", None),
];

// the number of the first message that is not new, or behind which another one is missing
fn wrong_missing(
    alloc: Global,
    inbox: &mut Inbox,
    rows: &[(u32, &[u8], Option<u32>)],
) -> Option<usize> {
    for (at, (gate, bytes, missing)) in rows.iter().enumerate() {
        let is_new = is_answered(alloc, inbox, *gate, bytes, &Answer::New);
        if !is_new || !is_missing(inbox, *missing) {
            return Some(at);
        }
    }
    None
}

fn are_missing(alloc: Global, inbox: &mut Inbox) -> bool {
    is_missing(inbox, Some(1))
        && inbox.missing_from(Party(0)).is_none()
        && wrong_missing(alloc, inbox, &ARRIVING).is_none()
}

#[test]
fn the_first_slot_that_is_empty_is_missing(rt: HostRuntime) {
    let is_missing = match of_words(rt.alloc()) {
        Ok(mut inbox) => are_missing(rt.alloc(), &mut inbox),
        Err(_) => false,
    };
    assert!(rt; is_missing);
}

// whether nothing else is kept than this of the slot
fn is_kept_alone(inbox: &Inbox, slot: Slot, bytes: &[u8]) -> bool {
    let is_kept = match inbox.get(slot) {
        Some(payload) => payload.bytes() == bytes,
        None => false,
    };
    let by_another = Slot {
        from: Party(0),
        ..slot
    };
    is_kept && inbox.get(Slot { round: 1, ..slot }).is_none() && inbox.get(by_another).is_none()
}

fn is_got(alloc: Global, inbox: &mut Inbox) -> bool {
    let slot = slot_of(1);
    let is_empty = inbox.get(slot).is_none();
    let is_new = is_answered(alloc, inbox, 1, b"abcdefgh", &Answer::New);
    is_empty && is_new && is_kept_alone(inbox, slot, b"abcdefgh")
}

fn is_unknown(alloc: Global, inbox: &mut Inbox) -> bool {
    match deliver(alloc, inbox, Party(0), 1, b"abcdefgh") {
        Ok(seen) => is_answer(&seen, 1, &Answer::Unknown),
        Err(_) => false,
    }
}

#[test]
fn what_is_kept_is_got_and_another_round_is_unknown(rt: HostRuntime) {
    let is_got = match of_words(rt.alloc()) {
        Ok(mut inbox) => is_got(rt.alloc(), &mut inbox) && is_unknown(rt.alloc(), &mut inbox),
        Err(_) => false,
    };
    assert!(rt; is_got);
}

// a gate, a payload of vectors, and what comes of it, one after another
static VECTORS: [(u32, &[u8], Answer); 12] = [
    (1, &[16], Answer::HighBits),
    (1, &[255], Answer::HighBits),
    (1, &[15], Answer::New),
    (1, &[255, 255], Answer::Length(1, 2)),
    (2, &[1, 255, 2, 0], Answer::HighBits),
    (2, &[2, 0, 0, 0], Answer::HighBits),
    (2, &[1, 255, 1, 255], Answer::New),
    (3, &[255, 255, 255, 255, 255, 255, 255, 255], Answer::New),
    (
        4,
        &[0, 0, 0, 0, 0, 0, 0, 0, 128, 0, 0, 0, 0, 0, 0, 0],
        Answer::HighBits,
    ),
    (
        4,
        &[128, 0, 0, 0, 0, 0, 0, 0, 0, 0, 0, 0, 0, 0, 0, 0],
        Answer::HighBits,
    ),
    (
        4,
        &[
            127, 255, 255, 255, 255, 255, 255, 255, 127, 255, 255, 255, 255, 255, 255, 255,
        ],
        Answer::New,
    ),
    (1, &[31], Answer::HighBits),
];

#[test]
fn a_vector_has_no_bit_at_or_above_its_width(rt: HostRuntime) {
    let wrong = match of_vectors(rt.alloc()) {
        Ok(mut inbox) => wrong_kept(rt.alloc(), &mut inbox, &VECTORS, 29),
        Err(_) => Some(0),
    };
    assert!(rt; wrong.is_none(), "row {wrong:?}");
}
