ghost use Rattle.std.specs.Prelude.{◌≡◌};
ghost use Rattle.share_types.specs.Wires.{includes};

use mot_base::Party;

/// Who learns an output.
#[derive(Clone, Copy, Debug, PartialEq, Eq)]
pub enum Receiver {
    All,
    One(Party),
}

impl Receiver {
    /// Whether a party is one of those who learn it.
    pub fn includes(self, party: Party) -> bool
        ensures { result ≡ includes self party.0 }
    {
        match self {
            Receiver::All => true,
            Receiver::One(other) => other.0 == party.0,
        }
    }
}
