ghost use Rattle.std.specs.Prelude.{◌≡◌, IfOk};
ghost use Rattle.peer_streams.specs.Runs.{hello_of, hellos_from, ends_for, fresh_peers};

use crate::peer::Peer;
use frames::{Frame, Hello};
use mot_base::{NoMemory, Party};
use std::alloc::Global;

/// The version of the frames that a Hello tells.
const VERSION: u8 = 1;

/// A run, as its parties tell it to each other in their Hellos.
#[derive(Clone, Copy, Debug, PartialEq, Eq)]
pub struct Run {
    /// The number of parties.
    pub parties: u8,
    /// The number of the deal that the parties' parts come from.
    pub id: u64,
    /// SHA-256 of the canonical text of the circuit.
    pub circuit: [u8; 32],
}

impl Run {
    /// The Hello of a party to another.
    pub fn hello(&self, from: Party, to: Party) -> Hello
        ensures { result ≡ hello_of self.now from to }
    {
        Hello {
            version: VERSION,
            parties: self.parties,
            from,
            to,
            id: self.id,
            circuit: self.circuit,
        }
    }

    /// The Hellos of a party to each party, by receiver.
    pub fn hellos(&self, alloc: Global, from: Party) -> Result<Vec<Frame>, NoMemory>
        ensures { IfOk result (λ frames. frames.items ≡ hellos_from self.now from) }
    {
        let mut frames = Vec::new(alloc);
        for to in 0..self.parties {
            frames.push(Frame::Hello(self.hello(from, Party(to))))?;
        }
        Ok(frames)
    }

    /// An End for each party.
    pub fn ends(&self, alloc: Global) -> Result<Vec<Frame>, NoMemory>
        ensures { IfOk result (λ frames. frames.items ≡ ends_for self.now) }
    {
        let mut frames = Vec::new(alloc);
        for _to in 0..self.parties {
            frames.push(Frame::End)?;
        }
        Ok(frames)
    }

    /// All parties, as one of them expects them, of whom nothing was read yet.
    pub fn peers(&self, alloc: Global, me: Party) -> Result<Vec<Peer>, NoMemory>
        ensures { IfOk result (λ peers. peers.items ≡ fresh_peers self.now me) }
    {
        let mut peers = Vec::new(alloc);
        for from in 0..self.parties {
            peers.push(Peer::new(alloc, self.hello(Party(from), me)))?;
        }
        Ok(peers)
    }
}
