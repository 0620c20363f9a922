//! What a party answers to the bytes of its peer, in the run that multiplies two words.
ghost use Rattle.std.specs.Prelude.{◌≡◌, ◌<◌, IfOk};
ghost use Rattle.message_demux.specs.Inbox.{empty_inbox};

use frames::FrameFault;
use message_demux::{Inbox, Refused, Shape, Slot, SlotSpec};
use mot_base::{BytesLeft, MemLinks, NoMemory, Party, Piece};
use peer_streams::{PartyError, Run, exchange};
use std::alloc::{AllocError, Global};

// the parts of party 1's stream to party 0, each by a letter
fn hex_of(part: char) -> &'static str {
    match part {
        'h' => {
            "0000002d01010201007aab31b445921b8a2fb898545a394b970cfbbe7745fb61bc67e0ef07d0426e4e5f27f4cdb7bb7bb4"
        }
        // a Hello of another deal
        'd' => {
            "0000002d01010201007aab31b445921b8b2fb898545a394b970cfbbe7745fb61bc67e0ef07d0426e4e5f27f4cdb7bb7bb4"
        }
        '1' => "0000000e0200000001004c9efaee32a7e0b4",
        // another payload in one bit
        'x' => "0000000e0200000001004c9efaee32a7e0b5",
        '2' => "0000001602000000020014d14cc3e5bf377f9433ae578d3898ca",
        '3' => "0000000e020000000300daae7c1276d40511",
        // a message of a gate that has none
        '4' => "0000000e020000000400daae7c1276d40511",
        'e' => "0000000103",
        // a frame of no bytes
        _ => "00000000",
    }
}

/// The bytes of such parts, one after another.
pub(crate) fn stream(alloc: Global, parts: &str) -> Option<Vec<u8>> {
    let mut text = String::new(alloc);
    for part in parts.chars() {
        text.push_str(hex_of(part)).ok()?;
    }
    hex::decode(alloc, text.as_str()).ok()
}

/// Bytes of party 1 in pieces of a size.
pub(crate) fn cut(alloc: Global, bytes: &[u8], size: usize) -> Result<Vec<Piece>, AllocError>
    requires { 0 < size }
{
    let mut pieces = Vec::new(alloc);
    for piece in bytes.chunks(size) {
        pieces.push(Piece {
            from: Party(1),
            bytes: BytesLeft::new(Vec::from_slice(alloc, piece)?),
        })?;
    }
    Ok(pieces)
}

fn run() -> Run
    ensures { result.parties ≡ 2 }
{
    Run {
        parties: 2,
        id: 0x7aab_31b4_4592_1b8a,
        circuit: [
            0x2f, 0xb8, 0x98, 0x54, 0x5a, 0x39, 0x4b, 0x97, 0x0c, 0xfb, 0xbe, 0x77, 0x45, 0xfb,
            0x61, 0xbc, 0x67, 0xe0, 0xef, 0x07, 0xd0, 0x42, 0x6e, 0x4e, 0x5f, 0x27, 0xf4, 0xcd,
            0xb7, 0xbb, 0x7b, 0xb4,
        ],
    }
}

fn expected(gate: u32, len: u32) -> SlotSpec
    ensures { result ≡ record { from = record { 0 = 1 }; gate = gate; round = 0; len = len; shape = Shape.Words } }
{
    SlotSpec {
        from: Party(1),
        gate,
        round: 0,
        len,
        shape: Shape::Words,
    }
}

fn inbox(alloc: Global) -> Result<Inbox, NoMemory>
    ensures { IfOk result (λ inbox. inbox ≡ empty_inbox inbox.slots) }
{
    let slots = vec![in alloc; expected(1, 8), expected(2, 16), expected(3, 8)]?;
    Inbox::new(alloc, slots)
}

/// What the run of party 0 ended with.
#[derive(Clone, Copy, Debug, PartialEq, Eq)]
pub(crate) enum Answer {
    /// It ended well, and keeps all payloads.
    Kept,
    /// It ended well, and lacks a payload.
    Lacking,
    HelloMissing,
    HelloDiffers(u8),
    BadFrame(FrameFault),
    UnknownSlot(u32),
    RepeatDiffers(u32),
    EndEarly(u32),
    PeerClosed,
    LinkFault,
    Other,
}

fn holds(inbox: &Inbox, gate: u32, payload: &[u8]) -> bool {
    let slot = Slot {
        from: Party(1),
        gate,
        round: 0,
    };
    match inbox.get(slot) {
        Some(kept) => kept.bytes() == payload,
        None => false,
    }
}

fn holds_all(inbox: &Inbox) -> bool {
    holds(inbox, 1, b"\x4c\x9e\xfa\xee\x32\xa7\xe0\xb4")
        && holds(
            inbox,
            2,
            b"\x14\xd1\x4c\xc3\xe5\xbf\x37\x7f\x94\x33\xae\x57\x8d\x38\x98\xca",
        )
        && holds(inbox, 3, b"\xda\xae\x7c\x12\x76\xd4\x05\x11")
}

pub(crate) fn answer_of(error: &PartyError) -> Answer {
    match error {
        PartyError::HelloMissing { peer: _ } => Answer::HelloMissing,
        PartyError::HelloDiffers {
            peer: _,
            field,
            ours: _,
            theirs: _,
        } => Answer::HelloDiffers(*field),
        PartyError::Frame { peer: _, fault } => Answer::BadFrame(*fault),
        PartyError::Refused { peer: _, refusal } => refusal_of(refusal),
        PartyError::EndEarly { peer: _, slot } => Answer::EndEarly(slot.gate),
        PartyError::PeerClosed { peer: _ } => Answer::PeerClosed,
        PartyError::LinkFault => Answer::LinkFault,
        PartyError::TooFew(_) | PartyError::TooManyBytes { peer: _ } | PartyError::NoMemory => {
            Answer::Other
        }
    }
}

fn refusal_of(refusal: &Refused) -> Answer {
    match refusal {
        Refused::UnknownSlot(slot) => Answer::UnknownSlot(slot.gate),
        Refused::RepeatDiffers {
            slot,
            kept: _,
            found: _,
        } => Answer::RepeatDiffers(slot.gate),
        _ => Answer::Other,
    }
}

fn listen(alloc: Global, links: &mut MemLinks, inbox: &mut Inbox) -> Answer
    requires { inbox.old ≡ empty_inbox inbox.old.slots }
{
    let mut buffer = [0; 200];
    match exchange(alloc, links, &run(), Party(0), 4000, inbox, &mut buffer) {
        Ok(()) if holds_all(inbox) => Answer::Kept,
        Ok(()) => Answer::Lacking,
        Err(error) => answer_of(&error),
    }
}

// the answer to these parts in pieces of a size, where these calls fail
fn answer_to(alloc: Global, parts: &str, size: usize, fails: Vec<u64>) -> Option<Answer>
    requires { 0 < size }
{
    let bytes = stream(alloc, parts)?;
    let pieces = cut(alloc, bytes.as_slice(), size).ok()?;
    let mut links = MemLinks::new(alloc, pieces, Vec::new(alloc), fails);
    let mut inbox = inbox(alloc).ok()?;
    Some(listen(alloc, &mut links, &mut inbox))
}

static ANSWERS: [(&str, Answer); 16] = [
    ("h123e", Answer::Kept),
    ("hh3h2211e", Answer::Kept),
    ("h123ex4d", Answer::Kept),
    ("h123", Answer::PeerClosed),
    ("", Answer::PeerClosed),
    ("1h23e", Answer::HelloMissing),
    ("e", Answer::HelloMissing),
    ("d123e", Answer::HelloDiffers(4)),
    ("h12d3e", Answer::HelloDiffers(4)),
    ("h1x23e", Answer::RepeatDiffers(1)),
    ("h2131x3e", Answer::RepeatDiffers(1)),
    ("h4", Answer::UnknownSlot(4)),
    ("h13e", Answer::EndEarly(2)),
    ("h13ed", Answer::EndEarly(2)),
    ("h1-", Answer::BadFrame(FrameFault::Length)),
    ("-h123e", Answer::BadFrame(FrameFault::Length)),
];

// the first row with another answer, whole and in pieces of three bytes
fn wrong_row(alloc: Global, rows: &[(&str, Answer)]) -> Option<usize> {
    for (at, (parts, wanted)) in rows.iter().enumerate() {
        let whole = answer_to(alloc, parts, 200, Vec::new(alloc));
        let cut = answer_to(alloc, parts, 3, Vec::new(alloc));
        if whole != Some(*wanted) || cut != Some(*wanted) {
            return Some(at);
        }
    }
    None
}

#[test]
fn each_stream_has_its_answer(rt: HostRuntime) {
    let wrong = wrong_row(rt.alloc(), &ANSWERS);
    assert!(rt; wrong.is_none(), "stream {wrong:?}");
}

// the first size of pieces in which a stream with each message twice is not kept whole
fn wrong_size(alloc: Global) -> Option<usize> {
    for size in 1..200 {
        if answer_to(alloc, "h112233e", size, Vec::new(alloc)) != Some(Answer::Kept) {
            return Some(size);
        }
    }
    None
}

#[test]
fn a_stream_in_pieces_of_any_size_is_kept(rt: HostRuntime) {
    let wrong = wrong_size(rt.alloc());
    assert!(rt; wrong.is_none(), "pieces of {wrong:?} bytes");
}

fn failing(alloc: Global, call: u64) -> Option<Answer> {
    let fails = vec![in alloc; call].ok()?;
    answer_to(alloc, "h123e", 200, fails)
}

// the calls are connect, Hello, End, a take, and the last wait
fn each_fault_is_told(alloc: Global) -> bool {
    for call in 1..6 {
        if failing(alloc, call) != Some(Answer::LinkFault) {
            return false;
        }
    }
    failing(alloc, 6) == Some(Answer::Kept)
}

#[test]
fn a_call_of_the_links_that_fails_is_told(rt: HostRuntime) {
    assert!(&rt; each_fault_is_told(rt.alloc()));
}

// what party 0 sends to party 1: Hello and End
static SENT: &str =
    "0000002d01010200017aab31b445921b8a2fb898545a394b970cfbbe7745fb61bc67e0ef07d0426e4e5f27f4cdb7bb7bb40000000103";

fn sends(alloc: Global) -> Option<bool> {
    let bytes = stream(alloc, "h123e")?;
    let pieces = cut(alloc, bytes.as_slice(), 200).ok()?;
    let mut links = MemLinks::new(alloc, pieces, Vec::new(alloc), Vec::new(alloc));
    let mut inbox = inbox(alloc).ok()?;
    listen(alloc, &mut links, &mut inbox);
    let wanted = hex::decode(alloc, SENT).ok()?;
    Some(links.sent(Party(1)) == wanted.as_slice())
}

#[test]
fn hello_and_end_are_sent(rt: HostRuntime) {
    assert!(&rt; sends(rt.alloc()) == Some(true));
}
