ghost use Rattle.std.specs.Prelude.{◌≡◌, ◌<◌, ◌≤◌, ◌==◌, ◌++◌, [], ◌∷◌, length, slice_get, option_map, Some, OnOk, OnErr};
ghost use Rattle.mot_base.specs.Limits.{most_gates};

use mot_base::{NoMemory, Party};
use std::alloc::Global;
use std::marker::Model;

/// An input: its name, the party whose value it is, and how many bits the value has.
#[derive(Debug, Drop)]
struct Input {
    name: String,
    party: Party,
    width: u32,
}

impl Model for Input {
    ghost use Rattle.std.specs.Prelude.{string_bytes};
    ghost use Rattle.circuit_tables.specs.Table as spec;

    ghost Value = { spec.Input };

    ghost view = { λ i. record { name = string_bytes i.name; party = i.party; width = i.width } };
}

/// A table of inputs, in the order in which they were added.
#[derive(Debug, Drop)]
pub struct InputTable {
    inputs: Vec<Input>,
}

impl Model for InputTable {
    ghost use Rattle.std.specs.Prelude.{List, length, ◌≤◌};
    ghost use Rattle.circuit_tables.specs.Table as spec;
    ghost use Rattle.mot_base.specs.Limits.{most_gates};

    ghost Value = { List spec.Input };

    ghost view = { λ t. t.inputs.items };

    ghost invariant = { λ t. length t.inputs.items ≤ most_gates };
}

impl InputTable {
    /// The table of no input. It takes no memory.
    pub fn new(alloc: Global) -> InputTable
        ensures { result ≡ [] }
    {
        InputTable {
            inputs: Vec::new(alloc),
        }
    }

    /// Adds an input at the end.
    pub fn push(&mut self, name: &str, party: Party, width: u32) -> Result<(), NoMemory>
        requires { length self.old < most_gates }
        ensures ok { OnOk result (self.new
            ≡ self.old ++ record { name = name.now; party = party; width = width } ∷ []) }
        ensures err { OnErr result (self.new ≡ self.old) }
    {
        let alloc = *self.inputs.allocator();
        let name = String::from_str(alloc, name)?;
        self.inputs.push(Input { name, party, width })?;
        Ok(())
    }

    /// The number of inputs.
    pub fn len(&self) -> u32
        ensures value { result ≡ length self.now }
        ensures most { result ≤ most_gates }
    {
        self.inputs.len() as u32
    }

    /// Whether there is no input.
    pub fn is_empty(&self) -> bool
        ensures { result ≡ (length self.now == 0) }
    {
        self.inputs.is_empty()
    }

    /// The name of an input.
    pub fn name(&self, at: u32) -> &str
        requires { at < length self.now }
        ensures { option_map (λ i. i.name) (slice_get self.entry.now at) ≡ Some result.now }
    {
        self.inputs[at as usize].name.as_str()
    }

    /// The party whose value an input is.
    pub fn party(&self, at: u32) -> Party
        requires { at < length self.now }
        ensures { option_map (λ i. i.party) (slice_get self.now at) ≡ Some result }
    {
        self.inputs[at as usize].party
    }

    /// How many bits the value of an input has.
    pub fn width(&self, at: u32) -> u32
        requires { at < length self.now }
        ensures { option_map (λ i. i.width) (slice_get self.now at) ≡ Some result }
    {
        self.inputs[at as usize].width
    }
}
