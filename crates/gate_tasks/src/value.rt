//! What a party has of a gate.

ghost use Rattle.std.specs.Prelude.{◌≡◌, IfOk};

use mot_base::NoMemory;
use share_types::Bits;
use std::alloc::Global;

/// What a party has of a gate.
#[derive(Debug, Drop)]
pub enum Value {
    /// A share of a word: the shares of all parties sum to it modulo 2^64.
    A(u64),
    /// A share of a vector: the shares of all parties XOR to it.
    B(Bits),
    /// What an output told: the vector, which has 64 bits where it is a word, and nothing to a party that is not told.
    Told(Option<Bits>),
}

impl Value {
    /// Another value that is the same.
    pub fn copy(&self, _alloc: Global) -> Result<Value, NoMemory>
        ensures { IfOk result (λ copy. copy ≡ self.now) }
    {
        Ok(match self {
            Value::A(word) => Value::A(*word),
            Value::B(vector) => Value::B(*vector),
            Value::Told(told) => Value::Told(*told),
        })
    }
}
