ghost use Rattle.std.specs.Prelude.{◌≡◌, ◌<◌, [], length, map, option_map, replicate, slice_set, Some, None, IfOk};
ghost use Rattle.std.specs.Option.{unwrap_or};
ghost use Rattle.circuit_values.specs.Values.{is_free};

use std::alloc::{AllocError, Global};
use std::marker::Model;

/// The bits that inputs have behind some lines, for each input that has a line.
#[derive(Drop)]
pub struct Given {
    bits: Vec<Option<Vec<bool>>>,
}

impl Model for Given {
    ghost use Rattle.std.specs.Prelude.{List, Option, Bool, map, option_map};

    ghost Value = { List (Option (List Bool)) };

    ghost view = { λ g. map (λ o. option_map (λ bits. bits.items) o) g.bits.items };
}

impl Given {
    /// No bits, for so many inputs.
    pub fn none(alloc: Global, count: u32) -> Result<Given, AllocError>
        ensures { IfOk result (λ g. g ≡ replicate count None) }
    {
        let mut bits = Vec::new(alloc);
        for _i in 0..count {
            bits.push(None)?;
        }
        Ok(Given { bits })
    }

    /// Whether an input has no bits.
    pub fn is_free(&self, at: u32) -> bool
        requires { at < length self.now }
        ensures { result ≡ is_free self.now at }
    {
        self.bits[at as usize].is_none()
    }

    /// The same, where an input has these bits.
    pub fn with(mut self, at: u32, bits: Vec<bool>) -> Given
        requires { at < length self }
        ensures { result ≡ slice_set self at (Some bits.items) }
    {
        self.bits[at as usize] = Some(bits);
        self
    }

    /// The bits of each input, and none where it has none.
    pub fn all(self, alloc: Global) -> Result<Vec<Vec<bool>>, AllocError>
        ensures { IfOk result (λ all. map (λ bits. bits.items) all.items ≡ map (λ o. unwrap_or o []) self) }
    {
        self.bits
            .into_iter()
            .map(|bits| bits_or_none(alloc, bits))
            .collect(alloc)
    }
}

/// Some bits, and no bits where there are none.
fn bits_or_none(alloc: Global, bits: Option<Vec<bool>>) -> Vec<bool>
    ensures { result.items ≡ unwrap_or (option_map (λ bits. bits.items) bits) [] }
{
    match bits {
        Some(bits) => bits,
        None => Vec::new(alloc),
    }
}
