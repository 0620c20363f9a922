//! Links in memory, and a sink that takes a text in pieces.
ghost use Rattle.std.specs.Prelude.{◌<◌, length};

use mot_base::{
    BytesLeft, LinkError, LinkEvent, Links, MemLinks, MemSink, OpenGate, Party, Piece, Sink,
    Turnstile, write_all,
};
use std::alloc::{AllocError, Global};
use std::test::Fail;

fn piece(alloc: Global, from: u8, bytes: &[u8]) -> Result<Piece, AllocError> {
    Ok(Piece {
        from: Party(from),
        bytes: BytesLeft::new(Vec::from_slice(alloc, bytes)?),
    })
}

// pieces of parties 1, 0 and 2, and closings of 2, 0 and 2, where the fourth call fails
fn some_links(alloc: Global) -> Result<MemLinks, AllocError> {
    let pieces = vec![in alloc;
        piece(alloc, 1, b"hello")?,
        piece(alloc, 0, b"own")?,
        piece(alloc, 2, b"ab")?,
    ]?;
    let closing = vec![in alloc; Party(2), Party(0), Party(2)]?;
    Ok(MemLinks::new(alloc, pieces, closing, vec![in alloc; 4]?))
}

// what comes first once party 0 of three is connected
fn first_event(alloc: Global, links: &mut MemLinks, into: &mut [u8]) -> Result<LinkEvent, LinkError>
    requires { 0 < length into.old }
{
    links.connect(alloc, Party(0), 3, 4000)?;
    Ok(links.take(alloc, into))
}

// the first event of each connection in turn, into a buffer of three bytes
static EVENTS: [LinkEvent; 7] = [
    LinkEvent::Bytes(Party(1), 3),
    LinkEvent::Failed(Party(1)),
    LinkEvent::Bytes(Party(1), 2),
    LinkEvent::Bytes(Party(2), 2),
    LinkEvent::Closed(Party(2)),
    LinkEvent::Closed(Party(2)),
    LinkEvent::Closed(Party(1)),
];

fn gives_events(alloc: Global, links: &mut MemLinks) -> Result<bool, LinkError> {
    let mut buffer = [0; 3];
    for event in &EVENTS {
        if first_event(alloc, links, &mut buffer)? != *event {
            return Ok(false);
        }
    }
    Ok(true)
}

#[test]
fn each_event_comes_in_its_turn(rt: HostRuntime) -> Result<(), Fail> {
    let mut links = some_links(rt.alloc())?;
    let gives = gives_events(rt.alloc(), &mut links);
    assert!(rt; gives == Ok(true));
    Ok(())
}

fn sends(alloc: Global, links: &mut MemLinks) -> Result<bool, LinkError> {
    links.connect(alloc, Party(0), 3, 4000)?;
    links.send(alloc, Party(2), b"to ")?;
    links.send(alloc, Party(2), b"you")?;
    links.finish(alloc)?;
    Ok(true)
}

fn has_sent(links: &MemLinks) -> bool {
    links.sent(Party(2)) == b"to you".as_slice() && links.sent(Party(1)).is_empty()
}

#[test]
fn what_was_sent_to_a_party_is_kept(rt: HostRuntime) -> Result<(), Fail> {
    let alloc = rt.alloc();
    let mut links = MemLinks::new(alloc, Vec::new(alloc), Vec::new(alloc), Vec::new(alloc));
    let sent = sends(alloc, &mut links);
    assert!(rt; sent == Ok(true) && has_sent(&links));
    Ok(())
}

#[test]
fn a_text_is_written_whole_in_pieces(rt: HostRuntime) -> Result<(), Fail> {
    let alloc = rt.alloc();
    let mut sink = MemSink::in_pieces(alloc, 10, 3, Vec::new(alloc))?;
    let written = write_all(&mut sink, b"in pieces");
    assert!(rt; written.is_ok() && sink.bytes() == b"in pieces".as_slice());
    Ok(())
}

fn pass<G: Turnstile + Sync>(gate: &G) {
    gate.enter(1);
    gate.leave(1);
}

#[test]
fn an_open_gate_may_be_shared(_rt: HostRuntime) -> Result<(), Fail> {
    pass(&OpenGate);
    Ok(())
}
