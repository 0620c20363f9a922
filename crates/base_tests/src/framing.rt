//! Frames of links: worked streams, in every cutting, and their faults.
ghost use Rattle.std.specs.Prelude.{◌≤◌, IfOk, length};
ghost use Rattle.std.specs.List.{All};
ghost use Rattle.frames.specs.Bytes.{IsSendable};

use frames::{Frame, FrameFault, Hello, Reader, digest, write_frame};
use mot_base::{NoMemory, Party, Payload};
use std::alloc::Global;
use std::slice::Iter;

// what party 0 sends to party 1 in the run that multiplies two words: Hello, three messages and End
static STREAM: &str =
    "0000002d01010200017aab31b445921b8a2fb898545a394b970cfbbe7745fb61bc67e0ef07d0426e4e5f27f4cdb7bb7bb40000000e020000000000a052138367b5973400000016020000000200c5dbb4e069c6f0cd30741d53df25567e0000000e020000000300255183ed892bfb190000000103";

/// A frame that is to come, with the payload of a message.
#[derive(Drop)]
enum Wanted {
    Hello(Hello),
    Message(u32, u8, &'static [u8]),
    End,
}

static STREAM_FRAMES: [Wanted; 5] = [
    Wanted::Hello(Hello {
        version: 1,
        parties: 2,
        from: Party(0),
        to: Party(1),
        id: 8839213343975807882,
        circuit: [
            0x2f, 0xb8, 0x98, 0x54, 0x5a, 0x39, 0x4b, 0x97, 0x0c, 0xfb, 0xbe, 0x77, 0x45, 0xfb,
            0x61, 0xbc, 0x67, 0xe0, 0xef, 0x07, 0xd0, 0x42, 0x6e, 0x4e, 0x5f, 0x27, 0xf4, 0xcd,
            0xb7, 0xbb, 0x7b, 0xb4,
        ],
    }),
    Wanted::Message(0, 0, b"\xa0\x52\x13\x83\x67\xb5\x97\x34"),
    Wanted::Message(
        2,
        0,
        b"\xc5\xdb\xb4\xe0\x69\xc6\xf0\xcd\x30\x74\x1d\x53\xdf\x25\x56\x7e",
    ),
    Wanted::Message(3, 0, b"\x25\x51\x83\xed\x89\x2b\xfb\x19"),
    Wanted::End,
];

fn is_frame(frame: &Frame, wanted: &Wanted) -> bool {
    match (frame, wanted) {
        (Frame::Hello(seen), Wanted::Hello(hello)) => *seen == *hello,
        (
            Frame::Message {
                gate,
                round,
                payload,
            },
            Wanted::Message(of, at, bytes),
        ) => *gate == *of && *round == *at && payload.bytes() == *bytes,
        (Frame::End, Wanted::End) => true,
        _ => false,
    }
}

// whether the frames are the next of those that are to come
fn come_next(frames: &[Frame], wanted: &mut Iter<Wanted>) -> bool {
    for frame in frames {
        match wanted.next() {
            Some(next) if is_frame(frame, next) => {}
            _ => return false,
        }
    }
    true
}

// whether a piece gives frames that are to come next, and no fault
fn is_fed(alloc: Global, reader: &mut Reader, piece: &[u8], wanted: &mut Iter<Wanted>) -> bool {
    let Ok(fed) = reader.feed(alloc, piece) else {
        return false;
    };
    fed.fault.is_none() && come_next(&fed.frames, wanted)
}

fn are_fed(
    alloc: Global,
    reader: &mut Reader,
    pieces: &[&[u8]],
    wanted: &mut Iter<Wanted>,
) -> bool {
    for piece in pieces {
        if !is_fed(alloc, reader, piece, wanted) {
            return false;
        }
    }
    true
}

fn bytes_are_fed(
    alloc: Global,
    reader: &mut Reader,
    bytes: &[u8],
    wanted: &mut Iter<Wanted>,
) -> bool {
    for byte in bytes.chunks(1) {
        if !is_fed(alloc, reader, byte, wanted) {
            return false;
        }
    }
    true
}

// whether the pieces, fed in turn, give these frames and no fault
fn gives(alloc: Global, pieces: &[&[u8]], frames: &[Wanted]) -> bool {
    let mut reader = Reader::new(alloc);
    let mut wanted = frames.iter();
    let are_fed = are_fed(alloc, &mut reader, pieces, &mut wanted);
    are_fed && wanted.next().is_none() && reader.pending() == 0
}

// the same of single bytes
fn gives_by_bytes(alloc: Global, bytes: &[u8], frames: &[Wanted]) -> bool {
    let mut reader = Reader::new(alloc);
    let mut wanted = frames.iter();
    let are_fed = bytes_are_fed(alloc, &mut reader, bytes, &mut wanted);
    are_fed && wanted.next().is_none() && reader.pending() == 0
}

// a message of gate 2 and End
static MESSAGE_AND_END: &[u8] =
    b"\x00\x00\x00\x16\x02\x00\x00\x00\x02\x00\x00\x00\x00\x00\x00\x00\x00\x01\x00\x00\x00\x00\x00\x00\x00\x02\x00\x00\x00\x01\x03";

static MESSAGE_AND_END_FRAMES: [Wanted; 2] = [
    Wanted::Message(
        2,
        0,
        b"\x00\x00\x00\x00\x00\x00\x00\x01\x00\x00\x00\x00\x00\x00\x00\x02",
    ),
    Wanted::End,
];

// whether a message and End come
fn gives_both(alloc: Global, frames: &[Wanted], bytes: &[u8]) -> bool {
    gives(alloc, &[bytes], frames) && gives_by_bytes(alloc, bytes, frames)
}

#[test]
fn a_message_and_end_come_whole_and_byte_by_byte(rt: HostRuntime) {
    assert!(&rt; gives_both(rt.alloc(), &MESSAGE_AND_END_FRAMES, MESSAGE_AND_END));
}

fn gives_cut_again(alloc: Global, front: &[u8], back: &[u8], frames: &[Wanted]) -> bool {
    for next in 0..=back.len() {
        let (middle, end) = back.split_at(next);
        if !gives(alloc, &[front, middle, end], frames) {
            return false;
        }
    }
    true
}

// the first place of a cut after which other frames come, whole or cut once more
fn wrong_cut(alloc: Global, stream: &[u8], frames: &[Wanted]) -> Option<usize> {
    for cut in 0..=stream.len() {
        let (front, back) = stream.split_at(cut);
        if !gives(alloc, &[front, back], frames) || !gives_cut_again(alloc, front, back, frames) {
            return Some(cut);
        }
    }
    None
}

fn stream(alloc: Global) -> Vec<u8> {
    hex::decode(alloc, STREAM).unwrap_or(Vec::new(alloc))
}

// the same of the stream, which has 116 bytes
fn wrong_cut_of_stream(alloc: Global, frames: &[Wanted]) -> Option<usize> {
    let stream = stream(alloc);
    if stream.len() != 116 {
        return Some(stream.len());
    }
    wrong_cut(alloc, &stream, frames)
}

#[test]
fn each_cut_into_two_and_three_gives_the_same_frames(rt: HostRuntime) {
    let wrong = wrong_cut_of_stream(rt.alloc(), &STREAM_FRAMES);
    assert!(rt; wrong.is_none(), "cut {wrong:?}");
}

// bytes of a bad frame, its fault, and how many of the bytes show it
static FAULTS: [(&[u8], FrameFault, usize); 11] = [
    (b"\x00\x00\x00\x00", FrameFault::Length, 4),
    (b"\x00\x01\x00\x07", FrameFault::Length, 4),
    (b"\xff\xff\xff\xff\x02", FrameFault::Length, 4),
    (b"\x00\x00\x00\x01\x04", FrameFault::Kind, 5),
    (b"\x00\x00\x00\x01\x00", FrameFault::Kind, 5),
    (b"\x00\x01\x00\x06\xff", FrameFault::Kind, 5),
    (b"\x00\x00\x00\x02\x03", FrameFault::Fields, 5),
    (b"\x00\x00\x00\x06\x02", FrameFault::Fields, 5),
    (b"\x00\x00\x00\x2c\x01", FrameFault::Fields, 5),
    (b"\x00\x00\x00\x2e\x01", FrameFault::Fields, 5),
    (b"\x00\x01\x00\x06\x03\x00", FrameFault::Fields, 5),
];

// whether a piece gives so many frames and this fault
fn answers(
    alloc: Global,
    reader: &mut Reader,
    piece: &[u8],
    frames: usize,
    fault: Option<FrameFault>,
) -> bool {
    let Ok(fed) = reader.feed(alloc, piece) else {
        return false;
    };
    fed.frames.len() == frames && fed.fault == fault
}

// whether the fault comes with the byte that shows it, and not before
fn shows(
    alloc: Global,
    reader: &mut Reader,
    bytes: &[u8],
    fault: FrameFault,
    shown: usize,
) -> bool {
    for (place, byte) in bytes.chunks(1).enumerate() {
        let wanted = if place + 1 < shown { None } else { Some(fault) };
        if !answers(alloc, reader, byte, 0, wanted) {
            return false;
        }
    }
    true
}

// whether the bytes give the fault, also behind good frames that come after them
fn is_bad(alloc: Global, bytes: &[u8], fault: FrameFault, shown: usize, good: &[u8]) -> bool {
    let mut reader = Reader::new(alloc);
    let is_shown = shows(alloc, &mut reader, bytes, fault, shown);
    let stays = answers(alloc, &mut reader, good, 0, Some(fault));
    is_shown && stays && reader.pending() == 0
}

// the number of the first row with another fault
fn wrong_fault(alloc: Global, rows: &[(&[u8], FrameFault, usize)], good: &[u8]) -> Option<usize> {
    for (at, (bytes, fault, shown)) in rows.iter().enumerate() {
        if !is_bad(alloc, bytes, *fault, *shown, good) {
            return Some(at);
        }
    }
    None
}

#[test]
fn a_bad_frame_is_a_fault_for_ever(rt: HostRuntime) {
    let wrong = wrong_fault(rt.alloc(), &FAULTS, MESSAGE_AND_END);
    assert!(rt; wrong.is_none(), "frame {wrong:?}");
}

fn comes_behind_a_frame(alloc: Global) -> bool {
    let bytes = b"\x00\x00\x00\x08\x02\x00\x00\x00\x07\x01\x09\xaa\x00\x00\x00\x00";
    let mut reader = Reader::new(alloc);
    answers(alloc, &mut reader, bytes, 1, Some(FrameFault::Length))
}

// whether bytes give no fault, and none of them wait
fn has_no_fault(alloc: Global, reader: &mut Reader, bytes: &[u8]) -> bool {
    let Ok(fed) = reader.feed(alloc, bytes) else {
        return false;
    };
    fed.fault.is_none() && reader.pending() == 0
}

fn nothing_comes_behind_end(alloc: Global) -> bool {
    let bytes = b"\x00\x00\x00\x01\x03\x00\x00\x00\x00";
    let mut reader = Reader::new(alloc);
    has_no_fault(alloc, &mut reader, bytes) && has_no_fault(alloc, &mut reader, bytes)
}

#[test]
fn a_fault_comes_behind_whole_frames_and_nothing_behind_end(rt: HostRuntime) {
    assert!(&rt; comes_behind_a_frame(rt.alloc()) && nothing_comes_behind_end(rt.alloc()));
}

// whether a piece gives so many frames, behind which so many bytes wait
fn waits(alloc: Global, reader: &mut Reader, piece: &[u8], frames: usize, pending: usize) -> bool {
    let Ok(fed) = reader.feed(alloc, piece) else {
        return false;
    };
    fed.frames.len() == frames && reader.pending() == pending
}

fn waits_for_the_others(alloc: Global, bytes: &[u8]) -> bool {
    let mut reader = Reader::new(alloc);
    let (front, back) = bytes.split_at(bytes.len().min(60));
    let (middle, _) = back.split_at(back.len().min(7));
    waits(alloc, &mut reader, front, 1, 11) && waits(alloc, &mut reader, middle, 1, 0)
}

#[test]
fn bytes_of_a_frame_wait_for_the_others(rt: HostRuntime) {
    assert!(&rt; waits_for_the_others(rt.alloc(), &stream(rt.alloc())));
}

fn gives_hello(alloc: Global) -> bool {
    let bytes =
        b"\x00\x00\x00\x2d\x01\x02\xff\x09\xc8\x00\x00\x00\x00\x00\x00\x00\x07\x00\x00\x00\x00\x00\x00\x00\x00\x00\x00\x00\x00\x00\x00\x00\x00\x00\x00\x00\x00\x00\x00\x00\x00\x00\x00\x00\x00\x00\x00\xff\xff";
    let mut circuit = [0; 32];
    circuit[30] = 255;
    circuit[31] = 255;
    let hello = Hello {
        version: 2,
        parties: 255,
        from: Party(9),
        to: Party(200),
        id: 7,
        circuit,
    };
    gives(alloc, &[bytes], &[Wanted::Hello(hello)])
}

#[test]
fn a_hello_is_given_as_it_stands(rt: HostRuntime) {
    assert!(&rt; gives_hello(rt.alloc()));
}

// a message of a payload of at most 16 bytes
fn message(alloc: Global, gate: u32, payload: &[u8]) -> Result<Frame, NoMemory>
    requires some { 1 ≤ length payload.now }
    requires few { length payload.now ≤ 16 }
    ensures { IfOk result IsSendable }
{
    Ok(Frame::Message {
        gate,
        round: 0,
        payload: Payload::new(Vec::from_slice(alloc, payload)?),
    })
}

// whether the bytes have this text
fn is_hex(alloc: Global, bytes: &[u8], text: &str) -> bool {
    match hex::encode(alloc, bytes) {
        Ok(seen) => seen.as_str() == text,
        Err(_) => false,
    }
}

fn writes(alloc: Global, frame: &Frame, text: &str) -> bool
    requires { IsSendable frame.now }
{
    match write_frame(alloc, frame) {
        Ok(bytes) => is_hex(alloc, &bytes, text),
        Err(_) => false,
    }
}

fn writes_a_message(alloc: Global) -> bool {
    let payload = [0, 0, 0, 0, 0, 0, 0, 1, 0, 0, 0, 0, 0, 0, 0, 2];
    let text = "0000001602000000020000000000000000010000000000000002";
    match message(alloc, 2, &payload) {
        Ok(message) => writes(alloc, &message, text),
        Err(_) => false,
    }
}

fn writes_hello(alloc: Global) -> bool {
    let hello = Hello {
        version: 1,
        parties: 2,
        from: Party(0),
        to: Party(1),
        id: 8839213343975807882,
        circuit: [7; 32],
    };
    let text =
        "0000002d01010200017aab31b445921b8a0707070707070707070707070707070707070707070707070707070707070707";
    writes(alloc, &Frame::Hello(hello), text)
}

#[test]
fn frames_are_written_as_the_format_says(rt: HostRuntime) {
    assert!(&rt; writes_a_message(rt.alloc()) && writes_hello(rt.alloc()));
    assert!(&rt; writes(rt.alloc(), &Frame::End, "0000000103"));
}

fn has_digest(alloc: Global, messages: &[Frame], text: &str) -> bool
    requires { All IsSendable messages.now }
{
    match digest(alloc, messages) {
        Ok(digest) => is_hex(alloc, digest.as_slice(), text),
        Err(_) => false,
    }
}

#[test]
fn the_digest_of_no_message_is_that_of_the_empty_text(rt: HostRuntime) {
    let text = "e3b0c44298fc1c149afbf4c8996fb92427ae41e4649b934ca495991b7852b855";
    assert!(&rt; has_digest(rt.alloc(), &[], text));
}

// the digest of what party 0 of the run that multiplies two words sends
fn digest_is_known(alloc: Global) -> bool {
    let opened = b"\xc5\xdb\xb4\xe0\x69\xc6\xf0\xcd\x30\x74\x1d\x53\xdf\x25\x56\x7e";
    let (Ok(first), Ok(second), Ok(third)) = (
        message(alloc, 0, b"\xa0\x52\x13\x83\x67\xb5\x97\x34"),
        message(alloc, 2, opened),
        message(alloc, 3, b"\x25\x51\x83\xed\x89\x2b\xfb\x19"),
    ) else {
        return false;
    };
    let text = "ede9e85c2353da49bd07e838a89e63c5813eac7435feece4b976d5b741518e21";
    has_digest(alloc, &[first, second, third], text)
}

#[test]
fn the_digest_of_the_multiplying_party_is_known(rt: HostRuntime) {
    assert!(&rt; digest_is_known(rt.alloc()));
}
