ghost use Rattle.std.specs.Prelude.{◌≡◌, ◌<◌, ◌≤◌, true, nat_le, length, sum, slice_index, Some, None, IfOk, if◌then◌else◌};
ghost use Rattle.bristol_reader.specs.Built.{are_positive};

use std::alloc::{AllocError, Global};
use std::marker::Model;

/// How many wires each of some values has, which is at least one.
#[derive(Debug, Drop)]
pub struct Widths {
    list: Vec<u32>,
    total: u32,
}

impl Model for Widths {
    ghost use Rattle.std.specs.Prelude.{◌≡◌, ℕ, List, true, sum};
    ghost use Rattle.bristol_reader.specs.Built.{are_positive};

    ghost Value = { List ℕ };

    ghost view = { λ w. w.list.items };

    ghost invariant = { λ w. (w.total ≡ sum w.list.items) × (are_positive w.list.items ≡ true) };
}

impl Widths {
    /// Widths that numbers are, if they have no more wires together than there are.
    pub fn within(alloc: Global, numbers: &[u64], wires: u32) -> Result<Option<Widths>, AllocError>
        requires { are_positive numbers.now ≡ true }
        ensures { IfOk result (λ widths.
            widths ≡ (if nat_le (sum numbers.now) wires then Some numbers.now else None)) }
    {
        let mut list = Vec::with_capacity(alloc, numbers.len())?;
        let mut total: u32 = 0;
        for number in numbers {
            if *number > u64::from(wires - total) {
                return Ok(None);
            }
            list.push(*number as u32)?;
            total += *number as u32;
        }
        Ok(Some(Widths { list, total }))
    }

    /// How many values there are.
    pub fn len(&self) -> u32
        ensures value { result ≡ length self.now }
        ensures few { result ≤ sum self.now }
    {
        let _total = self.total;
        self.list.len() as u32
    }

    /// The widths in order.
    pub fn as_slice(&self) -> &[u32]
        ensures { result.now ≡ self.entry.now }
    {
        self.list.as_slice()
    }

    /// How many wires the values have together.
    pub fn total(&self) -> u32
        ensures total { result ≡ sum self.now }
        ensures positive { are_positive self.now ≡ true }
    {
        self.total
    }

    /// How many wires a value has.
    pub fn width(&self, at: u32) -> u32
        requires { at < length self.now }
        ensures { result ≡ slice_index self.now at }
    {
        self.list[at as usize]
    }
}
