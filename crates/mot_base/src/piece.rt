ghost use Rattle.std.specs.Prelude.{◌≡◌, ◌<◌, length, take, drop, min, not, nat_lt};

use crate::Party;
use std::marker::Model;

/// Bytes that are given away from their front.
#[derive(Debug, Drop)]
pub struct BytesLeft {
    bytes: Vec<u8>,
    given: usize,
}

impl Model for BytesLeft {
    ghost use Rattle.std.specs.Prelude.{ℕ, ◌≤◌, List, drop, vec_len};

    ghost Value = { List ℕ };

    ghost view = { λ left. drop left.given left.bytes.items };

    ghost invariant = { λ left. left.given ≤ vec_len left.bytes };
}

impl BytesLeft {
    /// All of these bytes.
    pub fn new(bytes: Vec<u8>) -> BytesLeft
        ensures { result ≡ bytes.items }
    {
        BytesLeft { bytes, given: 0 }
    }

    /// Whether none is left.
    pub fn is_empty(&self) -> bool
        ensures { result ≡ not (nat_lt 0 (length self.now)) }
    {
        self.given == self.bytes.len()
    }

    /// Moves as many bytes as the buffer takes to its front, and says how many.
    pub fn give(&mut self, into: &mut [u8]) -> usize
        ensures count { result ≡ min (length into.old) (length self.old) }
        ensures given { take result into.new ≡ take result self.old }
        ensures left { self.new ≡ drop result self.old }
    {
        let rest = &self.bytes[self.given..];
        let count = into.len().min(rest.len());
        into[..count].copy_from_slice(&rest[..count]);
        self.given += count;
        count
    }
}

/// Bytes that links in memory give as those of a party.
#[derive(Debug, Drop)]
pub struct Piece {
    pub from: Party,
    pub bytes: BytesLeft,
}
