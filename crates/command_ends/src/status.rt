ghost use Rattle.std.specs.Prelude.{◌≡◌};
ghost use Rattle.command_ends.specs.Outcome.{code_of};

/// An exit status of the program.
#[derive(Clone, Copy, Debug, PartialEq, Eq)]
pub enum Status {
    /// The command did its work.
    Done,
    /// The words are outside the grammar.
    Usage,
    /// A circuit is refused.
    Circuit,
    /// Values are refused.
    Values,
    /// A dealer's file is refused.
    Dealer,
    /// There are too few correlations.
    TooFew,
    /// A file could not be loaded.
    File,
    /// The report could not be written.
    Write,
    /// Memory ran out.
    Memory,
}

impl Status {
    /// The number that the process ends with.
    pub fn code(self) -> u8
        ensures { result ≡ code_of self }
    {
        match self {
            Status::Done => 0,
            Status::Usage => 1,
            Status::Circuit => 2,
            Status::Values => 3,
            Status::Dealer => 4,
            Status::TooFew => 5,
            Status::File => 8,
            Status::Write => 9,
            Status::Memory => 11,
        }
    }
}
