ghost use Rattle.std.specs.Prelude.{◌≡◌, ◌<◌, ◌≤◌, ◌==◌, ◌++◌, [], ◌∷◌, length, slice_get, option_map, Some, OnOk, OnErr, IfOk};
ghost use Rattle.mot_base.specs.Limits.{most_width, most_gates};
ghost use Rattle.share_types.specs.Bits as vector;

use crate::bits::push_bits;
use mot_base::NoMemory;
use share_types::{Bits, Receiver};
use std::alloc::Global;
use std::marker::Model;

/// An output with its bits, the least first.
#[derive(Debug, Drop)]
struct Told {
    name: String,
    to: Receiver,
    bits: Vec<bool>,
}

impl Model for Told {
    ghost use Rattle.std.specs.Prelude.{string_bytes};
    ghost use Rattle.circuit_tables.specs.Table as spec;

    ghost Value = { spec.Told };

    ghost view = { λ t. record { name = string_bytes t.name; to = t.to; bits = t.bits.items } };
}

/// Outputs with their bits, in their order.
#[derive(Debug, Drop)]
pub struct Outputs {
    outputs: Vec<Told>,
}

impl Model for Outputs {
    ghost use Rattle.std.specs.Prelude.{List, length, ◌≤◌};
    ghost use Rattle.circuit_tables.specs.Table as spec;
    ghost use Rattle.mot_base.specs.Limits.{most_gates};

    ghost Value = { List spec.Told };

    ghost view = { λ t. t.outputs.items };

    ghost invariant = { λ t. length t.outputs.items ≤ most_gates };
}

impl Outputs {
    /// No output. It takes no memory.
    pub fn new(alloc: Global) -> Outputs
        ensures { result ≡ [] }
    {
        Outputs {
            outputs: Vec::new(alloc),
        }
    }

    /// Adds an output with the bits of a number, as many as the width, at the end.
    pub fn push(&mut self, name: &str, to: Receiver, word: u64, width: u8) -> Result<(), NoMemory>
        requires room { length self.old < most_gates }
        requires width { width ≤ most_width }
        ensures ok { OnOk result (self.new
            ≡ self.old ++ record { name = name.now; to = to; bits = vector.bits width word } ∷ []) }
        ensures err { OnErr result (self.new ≡ self.old) }
    {
        let alloc = *self.outputs.allocator();
        let name = String::from_str(alloc, name)?;
        let mut bits = Vec::with_capacity(alloc, usize::from(width))?;
        push_bits(&mut bits, word, width)?;
        self.outputs.push(Told { name, to, bits })?;
        Ok(())
    }

    /// Adds an output with some bits at the end.
    pub fn push_bits(&mut self, name: &str, to: Receiver, bits: &[bool]) -> Result<(), NoMemory>
        requires { length self.old < most_gates }
        ensures ok { OnOk result (self.new
            ≡ self.old ++ record { name = name.now; to = to; bits = bits.now } ∷ []) }
        ensures err { OnErr result (self.new ≡ self.old) }
    {
        let alloc = *self.outputs.allocator();
        let name = String::from_str(alloc, name)?;
        let bits = bits.to_vec(alloc)?;
        self.outputs.push(Told { name, to, bits })?;
        Ok(())
    }

    /// The number of outputs.
    pub fn len(&self) -> u32
        ensures value { result ≡ length self.now }
        ensures most { result ≤ most_gates }
    {
        self.outputs.len() as u32
    }

    /// Whether there is no output.
    pub fn is_empty(&self) -> bool
        ensures { result ≡ (length self.now == 0) }
    {
        self.outputs.is_empty()
    }

    /// The name of an output.
    pub fn name(&self, at: u32) -> &str
        requires { at < length self.now }
        ensures { option_map (λ t. t.name) (slice_get self.entry.now at) ≡ Some result.now }
    {
        self.outputs[at as usize].name.as_str()
    }

    /// Who is told an output.
    pub fn receiver(&self, at: u32) -> Receiver
        requires { at < length self.now }
        ensures { option_map (λ t. t.to) (slice_get self.now at) ≡ Some result }
    {
        self.outputs[at as usize].to
    }

    /// The bits of an output, the least first.
    pub fn bits(&self, at: u32) -> &[bool]
        requires { at < length self.now }
        ensures { option_map (λ t. t.bits) (slice_get self.entry.now at) ≡ Some result.now }
    {
        self.outputs[at as usize].bits.as_slice()
    }
}
