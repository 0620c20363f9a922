//! Times calls of the libraries.
//!
//!     library_bench SIZE [WORK ..]
//!
//! Each work, or each of those that are named, is done that many times. What came of it goes to the
//! output, one line a work, and how long it took to the error output.
#![tactic(auto)]

mod claims;
mod dealer;
mod floor;
mod keys;
mod messages;
mod plans;
mod shares;
mod tapes;
mod turns;

use anyhow::{Error, anyhow};
use std::alloc::Global;
use std::env;
use std::thread::Threads;
use std::time::Instant;

/// What can be done, by name. A work is given how many times it is done, and gives a number that shows it.
static WORKS: [(&str, Work); 19] = [
    ("words", Work::Words),
    ("shares-of-two", Work::SharesOfTwo),
    ("shares-of-eight", Work::SharesOfEight),
    ("hidden-keys", Work::HiddenKeys),
    ("garbled-ands", Work::GarbledAnds),
    ("graph", Work::Graph),
    ("drain", Work::Drain),
    ("messages", Work::Messages),
    ("frames-by-1", Work::FramesBy1),
    ("frames-by-1448", Work::FramesBy1448),
    ("frames-by-65536", Work::FramesBy65536),
    ("frames-hashed", Work::FramesHashed),
    ("deal", Work::Deal),
    ("deal-floor", Work::DealFloor),
    ("read-keys", Work::ReadKeys),
    ("read-circuit", Work::ReadCircuit),
    ("lower-circuit", Work::LowerCircuit),
    ("claims-by-one", Work::ClaimsByOne),
    ("claims-by-four", Work::ClaimsByFour),
];

#[derive(Clone, Copy)]
enum Work {
    /// Words are read from a tape, one after another.
    Words,
    /// A value is shared among two parties, at one gate after another.
    SharesOfTwo,
    /// The same among eight.
    SharesOfEight,
    /// As many keys are hidden as by so many garbled ANDs of one bit and three parties.
    HiddenKeys,
    /// So many ANDs of one bit are garbled by three parties, and evaluated by each.
    GarbledAnds,
    /// A graph of so many items and twice as many edges is made.
    Graph,
    /// The same graph is made, and its items are turned by a work that only counts.
    Drain,
    /// Messages of 16 bytes are written, read from pieces of 4,096 bytes and delivered.
    Messages,
    /// Messages of 16 bytes are written, and read from pieces of 1 byte.
    FramesBy1,
    /// The same from pieces of 1,448 bytes.
    FramesBy1448,
    /// The same from pieces of 65,536 bytes.
    FramesBy65536,
    /// So many frames of 26 bytes are written one after another, and SHA-256 of all is taken.
    FramesHashed,
    /// So many bit triples and three tenths as many key bits are dealt to three parties and written.
    Deal,
    /// As many words are drawn as that draws, and written.
    DealFloor,
    /// A dealer file of so many key bits of two parties is read.
    ReadKeys,
    /// A circuit of so many statements is read.
    ReadCircuit,
    /// The same circuit is read and lowered, and its messages to one party and all offsets are gone through.
    LowerCircuit,
    /// So many correlations are claimed one after another, by one thread.
    ClaimsByOne,
    /// So many are claimed in all, by four threads.
    ClaimsByFour,
}

impl Work {
    /// Does the work that many times.
    fn run<R: Threads + Sync>(self, threads: &R, alloc: Global, size: u32) -> Result<u64, Error> {
        match self {
            Work::Words => Ok(tapes::read_words(size)),
            Work::SharesOfTwo => Ok(shares::share_among(alloc, size, 2)?),
            Work::SharesOfEight => Ok(shares::share_among(alloc, size, 8)?),
            Work::HiddenKeys => Ok(keys::hide(size)),
            Work::GarbledAnds => Ok(keys::garble(alloc, size)?),
            Work::Graph => Ok(turns::make_graph(alloc, size)?),
            Work::Drain => Ok(turns::drain_graph(alloc, size)?),
            Work::Messages => Ok(messages::deliver_all(alloc, size)?),
            Work::FramesBy1 => Ok(messages::read_in_pieces(alloc, size, 1)?),
            Work::FramesBy1448 => Ok(messages::read_in_pieces(alloc, size, 1448)?),
            Work::FramesBy65536 => Ok(messages::read_in_pieces(alloc, size, 65_536)?),
            Work::FramesHashed => Ok(floor::hash_frames(alloc, size)?),
            Work::Deal => Ok(dealer::deal_to_three(alloc, size)?),
            Work::DealFloor => Ok(dealer::draw_and_write(alloc, size)?),
            Work::ReadKeys => Ok(dealer::read_keys(alloc, size)?),
            Work::ReadCircuit => Ok(plans::read(alloc, size)?),
            Work::LowerCircuit => Ok(plans::lower(alloc, size)?),
            Work::ClaimsByOne => Ok(claims::claim(threads, alloc, size, 1)?),
            Work::ClaimsByFour => Ok(claims::claim(threads, alloc, size, 4)?),
        }
    }
}

fn main(rt: HostRuntime) -> Result<(), Error> {
    let words: Vec<String> = env::args(&rt)?.skip(1).collect(rt.alloc())?;
    let Some((size, names)) = words.split_first() else {
        return Err(anyhow!("the words are SIZE [WORK ..]"));
    };
    let size: u32 = size.parse()?;
    for (name, work) in &WORKS {
        if names.is_empty() || names.iter().any(|asked| asked.as_str() == *name) {
            time(&rt, &rt, name, *work, size)?;
        }
    }
    Ok(())
}

/// Does a work, and says what came of it and how long it took.
fn time<R: Threads + Sync>(
    rt: &HostRuntime,
    threads: &R,
    name: &str,
    work: Work,
    size: u32,
) -> Result<(), Error> {
    let start = Instant::now(rt)?;
    let outcome = work.run(threads, rt.alloc(), size)?;
    let time = start.elapsed(rt)?;
    println!(rt; "{name} {size} {outcome}")?;
    eprintln!(rt; "{name} {size}: {} ms", time.as_millis())?;
    Ok(())
}
