//! The values of a gate's operands.

ghost use Rattle.std.specs.Prelude.{◌≡◌, ◌∷◌, ◌++◌, ◌<◌, [], length};

use gate_tasks::Value;
use std::marker::Model;
use std::slice;

/// The values of the operands of a gate, of which there are at most two. They take no memory of their own.
#[derive(Drop)]
pub(crate) struct Operands {
    few: Few,
}

#[derive(Drop)]
enum Few {
    None,
    One(Value),
    Two([Value; 2]),
}

impl Model for Operands {
    ghost use Rattle.std.specs.Prelude.{List};
    ghost use Rattle.gate_tasks.specs.declared.value.Value.{Value as ValueInMemory};
    ghost use Rattle.local_run.specs.Operands.{values_in, AreFew};

    ghost Value = { List ValueInMemory };

    ghost view = { λ o. values_in o.few };

    ghost invariant = { λ o. AreFew o.few };
}

impl Operands {
    /// No value.
    pub(crate) fn new() -> Operands
        ensures { result ≡ [] }
    {
        Operands { few: Few::None }
    }

    /// The same with one value more.
    pub(crate) fn with(self, value: Value) -> Operands
        requires { length self < 2 }
        ensures { result ≡ self ++ value ∷ [] }
    {
        let few = match self.few {
            Few::None => Few::One(value),
            Few::One(first) => Few::Two([first, value]),
            Few::Two(_) => unreachable!(),
        };
        Operands { few }
    }

    /// The values, in order.
    pub(crate) fn as_slice(&self) -> &[Value]
        ensures { result.now ≡ self.entry.now }
    {
        match &self.few {
            Few::None => &[],
            Few::One(value) => slice::from_ref(value),
            Few::Two(values) => values,
        }
    }
}
