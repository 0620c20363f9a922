//! What words ask for, each command's as a struct of its own.

ghost use Rattle.std.specs.Prelude.{◌≤◌, ◌≢◌};
ghost use Rattle.mot_base.specs.Limits.{least_parties, most_parties, most_workers};
ghost use Rattle.share_types.specs.declared.sharing.Sharing.TheVariants.{A};

use mot_base::Seed;
use share_types::Sharing;

/// What a line of words asks for.
#[derive(Debug, Drop)]
pub enum CommandWords {
    /// The plain evaluation of a circuit.
    Plain(PlainWords),
    /// The correlations that a circuit needs.
    Needs(NeedsWords),
    /// Dealer parts.
    Deal(DealWords),
    /// A run of all parties in this process.
    Local(LocalWords),
}

/// `--as` and `--parties`: the circuit is a Bristol text.
#[derive(Clone, Copy, Debug)]
pub struct BristolWords {
    /// How its wires are shared: by XOR, or as keys.
    pub sharing: Sharing,
    /// 2 to 8.
    pub parties: u8,
    pub ghost vectors: { sharing ≢ A },
    pub ghost some: { least_parties ≤ parties },
    pub ghost most: { parties ≤ most_parties },
}

/// The words after `plain`.
#[derive(Debug, Drop)]
pub struct PlainWords {
    /// The name of the circuit.
    pub circuit: String,
    /// The name of the values of the circuit's inputs.
    pub values: String,
    /// There where the circuit is a Bristol text.
    pub bristol: Option<BristolWords>,
}

/// The words after `needs`.
#[derive(Debug, Drop)]
pub struct NeedsWords {
    /// The name of the circuit.
    pub circuit: String,
    /// There where the circuit is a Bristol text.
    pub bristol: Option<BristolWords>,
}

/// The words after `deal`.
#[derive(Debug, Drop)]
pub struct DealWords {
    /// What the names of the parts begin with.
    pub prefix: String,
    /// What the dealer's tape is derived from.
    pub seed: Seed,
    /// 2 to 8.
    pub parties: u8,
    /// How many multiplication triples modulo 2^64 are dealt.
    pub mult: u32,
    /// How many bit triples, each for one AND.
    pub bit: u32,
    /// How many bits that are shared both by XOR and by sum.
    pub shared: u32,
    /// How many bits that are shared by XOR, with shares of their products with every party's offset.
    pub key: u32,
    pub ghost some: { least_parties ≤ parties },
    pub ghost most: { parties ≤ most_parties },
}

/// The words after `local`.
#[derive(Debug, Drop)]
pub struct LocalWords {
    /// The name of the circuit.
    pub circuit: String,
    /// The name of the values of the circuit's inputs.
    pub values: String,
    /// What every tape of the run is derived from.
    pub seed: Seed,
    /// There where the circuit is a Bristol text.
    pub bristol: Option<BristolWords>,
    /// What the names of the dealer parts begin with, where they are loaded.
    pub dealer: Option<String>,
    /// How many workers run the parties: 1 to 16, and 1 where the words say nothing of them.
    pub workers: u8,
    pub ghost one: { 1 ≤ workers },
    pub ghost few: { workers ≤ most_workers },
}

/// How many parties there are.
#[derive(Clone, Copy, Debug)]
pub(crate) struct PartyCount {
    pub count: u8,
    pub ghost some: { least_parties ≤ count },
    pub ghost most: { count ≤ most_parties },
}

/// How many workers there are.
#[derive(Clone, Copy, Debug)]
pub(crate) struct WorkerCount {
    pub count: u8,
    pub ghost one: { 1 ≤ count },
    pub ghost few: { count ≤ most_workers },
}

/// How the wires of a Bristol text are shared.
#[derive(Clone, Copy, Debug)]
pub(crate) struct WireSharing {
    pub sharing: Sharing,
    pub ghost vectors: { sharing ≢ A },
}
