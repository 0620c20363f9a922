ghost use Rattle.std.specs.Prelude.{◌≡◌, ◌+◌, ◌<◌, ◌≤◌, ◌^◌, OnOk, OnErr, IfErr};
ghost use Rattle.share_types.specs.Needs.{count_of, no_needs, sum_of_needs, IsFirstShort};
ghost use Rattle.share_types.specs.declared.needs.Kind.{Kind};

use thiserror::Error;

/// The kinds of correlated randomness that a dealer gives out.
#[derive(Clone, Copy, Debug, PartialEq, Eq)]
pub enum Kind {
    /// A multiplication triple modulo 2^64.
    Mult,
    /// A bit triple, for one AND.
    Bit,
    /// A bit that is shared both by XOR and by sum.
    Shared,
    /// A bit that is shared by XOR, with shares of its product with every party's offset.
    Key,
}

/// How many correlations of each kind are needed, or are there.
#[derive(Clone, Copy, Debug, PartialEq, Eq)]
pub struct Needs {
    pub mult: u32,
    pub bit: u32,
    pub shared: u32,
    pub key: u32,
}

/// More correlations of a kind were asked for than are there behind those that were asked for before.
#[derive(Clone, Copy, Debug, PartialEq, Eq, Error)]
#[error("{asked} correlations of kind {kind:?} were asked for behind {before}, of {stock}")]
pub struct TooFew {
    pub kind: Kind,
    pub before: u64,
    pub asked: u32,
    pub stock: u32,
}

impl Needs {
    /// No correlation.
    pub fn none() -> Needs
        ensures { result ≡ no_needs }
    {
        Needs {
            mult: 0,
            bit: 0,
            shared: 0,
            key: 0,
        }
    }

    /// What both need together.
    pub fn plus(self, other: Needs) -> Needs
        requires mult { self.mult + other.mult < 2 ^ 32 }
        requires bit { self.bit + other.bit < 2 ^ 32 }
        requires shared { self.shared + other.shared < 2 ^ 32 }
        requires key { self.key + other.key < 2 ^ 32 }
        ensures { result ≡ sum_of_needs self other }
    {
        Needs {
            mult: self.mult + other.mult,
            bit: self.bit + other.bit,
            shared: self.shared + other.shared,
            key: self.key + other.key,
        }
    }

    /// How many of that kind.
    pub fn count(&self, kind: Kind) -> u32
        ensures { result ≡ count_of self.now kind }
    {
        match kind {
            Kind::Mult => self.mult,
            Kind::Bit => self.bit,
            Kind::Shared => self.shared,
            Kind::Key => self.key,
        }
    }

    /// Whether the stock has as many of each kind, or else the first kind of which it has fewer, in the order
    /// mult, bit, shared, key.
    pub fn within(&self, stock: &Needs) -> Result<(), TooFew>
        ensures enough { OnOk result ((kind : Kind) → count_of self.now kind ≤ count_of stock.now kind) }
        ensures kind { IfErr result (λ few. IsFirstShort self.now stock.now few.kind) }
        ensures before { IfErr result (λ few. few.before ≡ 0) }
        ensures asked { IfErr result (λ few. few.asked ≡ count_of self.now few.kind) }
        ensures stock { IfErr result (λ few. few.stock ≡ count_of stock.now few.kind) }
    {
        self.kind_within(stock, Kind::Mult)?;
        self.kind_within(stock, Kind::Bit)?;
        self.kind_within(stock, Kind::Shared)?;
        self.kind_within(stock, Kind::Key)
    }

    /// The same of one kind.
    fn kind_within(&self, stock: &Needs, kind: Kind) -> Result<(), TooFew>
        ensures enough { OnOk result (count_of self.now kind ≤ count_of stock.now kind) }
        ensures short { OnErr result (count_of stock.now kind < count_of self.now kind) }
        ensures few { IfErr result (λ few. few ≡ record {
          kind = kind;
          before = 0;
          asked = count_of self.now kind;
          stock = count_of stock.now kind;
        }) }
    {
        let (asked, there) = (self.count(kind), stock.count(kind));
        if asked > there {
            return Err(TooFew {
                kind,
                before: 0,
                asked,
                stock: there,
            });
        }
        Ok(())
    }
}
