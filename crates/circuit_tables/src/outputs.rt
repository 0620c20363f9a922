ghost use Rattle.std.specs.Prelude.{◌≡◌, ◌<◌, ◌≤◌, ◌==◌, ◌++◌, [], ◌∷◌, length, slice_get, option_map, Some, OnOk, OnErr};
ghost use Rattle.mot_base.specs.Limits.{most_gates};

use mot_base::NoMemory;
use share_types::Receiver;
use std::alloc::Global;
use std::marker::Model;

/// An output: its name, who is told it, and how many bits it has.
#[derive(Debug, Drop)]
struct Output {
    name: String,
    to: Receiver,
    width: u32,
}

impl Model for Output {
    ghost use Rattle.std.specs.Prelude.{string_bytes};
    ghost use Rattle.circuit_tables.specs.Table as spec;

    ghost Value = { spec.Output };

    ghost view = { λ o. record { name = string_bytes o.name; to = o.to; width = o.width } };
}

/// A table of outputs, in the order in which they were added.
#[derive(Debug, Drop)]
pub struct OutputTable {
    outputs: Vec<Output>,
}

impl Model for OutputTable {
    ghost use Rattle.std.specs.Prelude.{List, length, ◌≤◌};
    ghost use Rattle.circuit_tables.specs.Table as spec;
    ghost use Rattle.mot_base.specs.Limits.{most_gates};

    ghost Value = { List spec.Output };

    ghost view = { λ t. t.outputs.items };

    ghost invariant = { λ t. length t.outputs.items ≤ most_gates };
}

impl OutputTable {
    /// The table of no output. It takes no memory.
    pub fn new(alloc: Global) -> OutputTable
        ensures { result ≡ [] }
    {
        OutputTable {
            outputs: Vec::new(alloc),
        }
    }

    /// Adds an output at the end.
    pub fn push(&mut self, name: &str, to: Receiver, width: u32) -> Result<(), NoMemory>
        requires { length self.old < most_gates }
        ensures ok { OnOk result (self.new
            ≡ self.old ++ record { name = name.now; to = to; width = width } ∷ []) }
        ensures err { OnErr result (self.new ≡ self.old) }
    {
        let alloc = *self.outputs.allocator();
        let name = String::from_str(alloc, name)?;
        self.outputs.push(Output { name, to, width })?;
        Ok(())
    }

    /// The number of outputs.
    pub fn len(&self) -> u32
        ensures value { result ≡ length self.now }
        ensures most { result ≤ most_gates }
    {
        self.outputs.len() as u32
    }

    /// Whether there is no output.
    pub fn is_empty(&self) -> bool
        ensures { result ≡ (length self.now == 0) }
    {
        self.outputs.is_empty()
    }

    /// The name of an output.
    pub fn name(&self, at: u32) -> &str
        requires { at < length self.now }
        ensures { option_map (λ o. o.name) (slice_get self.entry.now at) ≡ Some result.now }
    {
        self.outputs[at as usize].name.as_str()
    }

    /// Who is told an output.
    pub fn receiver(&self, at: u32) -> Receiver
        requires { at < length self.now }
        ensures { option_map (λ o. o.to) (slice_get self.now at) ≡ Some result }
    {
        self.outputs[at as usize].to
    }

    /// How many bits an output has.
    pub fn width(&self, at: u32) -> u32
        requires { at < length self.now }
        ensures { option_map (λ o. o.width) (slice_get self.now at) ≡ Some result }
    {
        self.outputs[at as usize].width
    }
}
