ghost use Rattle.std.specs.Prelude.{◌≡◌, codes, IfOk, string_bytes};
ghost use Rattle.command_ends.specs.Outcome.{line, about, part_name};
ghost use Rattle.command_ends.specs.Refusal.{status_of, line_of, cause_of, mixed_cause, bristol_cause, circuit_cause, values_cause, dealer_word, dealer_cause, field_name, part_fault, kind_name, few_line};

use crate::fault::{CircuitFault, Field, PartFault};
use crate::status::Status;
use bristol_reader::BristolCause;
use circuit_values::ValuesCause;
use cli_words::WordsError;
use dealer_files::DealerError;
use mixed_circuit::CircuitCause;
use mot_base::NoMemory;
use share_types::{Kind, TooFew};
use std::alloc::{AllocError, AllocFailed, Global};

/// Why a command ends without a report.
#[derive(Clone, Copy, Debug)]
pub enum Refusal<'a> {
    /// The words are outside the grammar.
    Usage,
    /// A line of the circuit of this name shows a cause.
    Circuit {
        name: &'a str,
        line: u32,
        cause: CircuitFault,
    },
    /// The circuit of this name is not built.
    NotBuilt {
        name: &'a str,
    },
    /// The circuit of this name has too many gates.
    Gates {
        name: &'a str,
        gates: u64,
    },
    /// A line of the values of this name shows a cause.
    Values {
        name: &'a str,
        line: u32,
        cause: ValuesCause,
    },
    /// A file of this name was not loaded.
    File {
        name: &'a str,
        cause: FileCause,
    },
    /// The file of a party's part, which is named by this prefix, was not loaded or not stored.
    Part {
        prefix: &'a str,
        party: u8,
        cause: FileCause,
    },
    /// The file of a party's part, which is named by this prefix, is not as expected.
    Dealer {
        prefix: &'a str,
        party: u8,
        fault: PartFault,
    },
    /// There are too few correlations of a kind.
    Few(TooFew),
    /// Memory ran out.
    Memory,
}

/// Why a file was not loaded, or not stored.
#[derive(Clone, Copy, Debug, PartialEq, Eq)]
pub enum FileCause {
    /// There is no file of that name.
    Missing,
    /// It is longer than a file may be.
    TooLong,
    /// The files failed.
    Fault,
}

impl FileCause {
    /// The word for it in a refusal's line.
    fn word(self) -> &'static str
        ensures { result.now ≡ cause_of self }
    {
        match self {
            FileCause::Missing => "missing",
            FileCause::TooLong => "too long",
            FileCause::Fault => "fault",
        }
    }
}

/// The name of a cause in a circuit's text.
fn circuit_word(cause: CircuitFault) -> &'static str
    ensures { result.now ≡ circuit_cause cause }
{
    match cause {
        CircuitFault::Mixed(cause) => mixed_word(cause),
        CircuitFault::Bristol(cause) => bristol_word(cause),
    }
}

/// The name of a cause in the text of a mixed circuit.
fn mixed_word(cause: CircuitCause) -> &'static str
    ensures { result.now ≡ mixed_cause cause }
{
    match cause {
        CircuitCause::NotText => "NotText",
        CircuitCause::Header => "Header",
        CircuitCause::Word => "Word",
        CircuitCause::NameTwice => "NameTwice",
        CircuitCause::NameUnknown => "NameUnknown",
        CircuitCause::WrongSharing => "WrongSharing",
        CircuitCause::WrongWidth => "WrongWidth",
        CircuitCause::BadNumber => "BadNumber",
        CircuitCause::BadParty => "BadParty",
        CircuitCause::TooMany => "TooMany",
    }
}

/// The name of a cause in a text in Bristol Fashion.
fn bristol_word(cause: BristolCause) -> &'static str
    ensures { result.now ≡ bristol_cause cause }
{
    match cause {
        BristolCause::NotText => "NotText",
        BristolCause::Header => "Header",
        BristolCause::Counts => "Counts",
        BristolCause::GateName => "GateName",
        BristolCause::Arity => "Arity",
        BristolCause::WireRange => "WireRange",
        BristolCause::UsedBeforeSet => "UsedBeforeSet",
        BristolCause::SetTwice => "SetTwice",
        BristolCause::OutputUnset => "OutputUnset",
        BristolCause::Leftover => "Leftover",
        BristolCause::TooMany => "TooMany",
    }
}

/// The name of a cause in a text of values.
fn values_word(cause: ValuesCause) -> &'static str
    ensures { result.now ≡ values_cause cause }
{
    match cause {
        ValuesCause::NameUnknown => "NameUnknown",
        ValuesCause::Missing => "Missing",
        ValuesCause::Twice => "Twice",
        ValuesCause::TooWide => "TooWide",
        ValuesCause::Word => "Word",
    }
}

/// The name of a cause in a dealer's file.
fn dealer_word(cause: DealerError) -> &'static str
    ensures { result.now ≡ dealer_word cause }
{
    match cause {
        DealerError::Magic => "Magic",
        DealerError::Version => "Version",
        DealerError::Party => "Party",
        DealerError::OffsetEven => "OffsetEven",
        DealerError::Counts => "Counts",
        DealerError::RecordBits { .. } => "RecordBits",
        DealerError::Short => "Short",
        DealerError::Long => "Long",
        DealerError::NoMemory => "NoMemory",
    }
}

/// The name of a field of a part.
fn field_word(field: Field) -> &'static str
    ensures { result.now ≡ field_name field }
{
    match field {
        Field::Parties => "parties",
        Field::Party => "party",
        Field::Id => "id",
        Field::Mult => "mult",
        Field::Bit => "bit",
        Field::Shared => "shared",
        Field::Key => "key",
    }
}

/// The name of a kind of correlations.
fn kind_word(kind: Kind) -> &'static str
    ensures { result.now ≡ kind_name kind }
{
    match kind {
        Kind::Mult => "mult",
        Kind::Bit => "bit",
        Kind::Shared => "shared",
        Kind::Key => "key",
    }
}

/// What is wrong with a dealer's file: the cause, and of a record the place.
fn dealer_text(alloc: Global, cause: DealerError) -> Result<String, AllocError>
    ensures { IfOk result (λ text. string_bytes text ≡ dealer_cause cause) }
{
    match cause {
        DealerError::RecordBits { place } => format!(in alloc; "RecordBits at {place}"),
        cause => String::from_str(alloc, dealer_word(cause)),
    }
}

/// What is wrong with a part.
fn fault_text(alloc: Global, fault: PartFault) -> Result<String, AllocError>
    ensures { IfOk result (λ text. string_bytes text ≡ part_fault fault) }
{
    match fault {
        PartFault::Unread(cause) => dealer_text(alloc, cause),
        PartFault::Differs(difference) => {
            let field = field_word(difference.field);
            let (expected, found) = (difference.expected, difference.found);
            format!(in alloc; "{field} expected {expected} found {found}")
        }
    }
}

/// The line of a part that is not as expected.
fn dealer_line(
    alloc: Global,
    prefix: &str,
    party: u8,
    fault: PartFault,
) -> Result<String, AllocError>
    ensures { IfOk result (λ text.
        string_bytes text ≡ about (codes "dealer") (part_name prefix.now party) (line (part_fault fault))) }
{
    let fault = fault_text(alloc, fault)?;
    let text = format!(in alloc; "dealer {prefix}.{party}: {fault}\n")?;
    Ok(text)
}

/// The line about too few correlations of a kind.
fn few_line(alloc: Global, few: TooFew) -> Result<String, AllocError>
    ensures { IfOk result (λ text. string_bytes text ≡ few_line few) }
{
    let kind = kind_word(few.kind);
    let (before, asked, stock) = (few.before, few.asked, few.stock);
    format!(in alloc; "too few {kind}: before {before} asked {asked} stock {stock}\n")
}

/// The line of a part whose file was not loaded or not stored.
fn part_line(alloc: Global, prefix: &str, party: u8, cause: FileCause) -> Result<String, AllocError>
    ensures { IfOk result (λ text.
        string_bytes text ≡ about (codes "file") (part_name prefix.now party) (line (cause_of cause))) }
{
    let cause = cause.word();
    let text = format!(in alloc; "file {prefix}.{party}: {cause}\n")?;
    Ok(text)
}

impl Refusal<'_> {
    /// The status that the program ends with.
    pub fn status(&self) -> Status
        ensures { result ≡ status_of self.entry.now }
    {
        match self {
            Refusal::Usage => Status::Usage,
            Refusal::Circuit { .. } | Refusal::NotBuilt { .. } | Refusal::Gates { .. } => {
                Status::Circuit
            }
            Refusal::Values { .. } => Status::Values,
            Refusal::File { .. } | Refusal::Part { .. } => Status::File,
            Refusal::Dealer { .. } => Status::Dealer,
            Refusal::Few(_) => Status::TooFew,
            Refusal::Memory => Status::Memory,
        }
    }

    /// The line that is written, with its end.
    pub fn line(&self, alloc: Global) -> Result<String, AllocError>
        ensures { IfOk result (λ text. string_bytes text ≡ line_of self.entry.now) }
    {
        match self {
            Refusal::Usage => String::from_str(alloc, "usage\n"),
            Refusal::Circuit { name, line, cause } => {
                let cause = circuit_word(*cause);
                format!(in alloc; "circuit {name}: line {line}: {cause}\n")
            }
            Refusal::NotBuilt { name } => format!(in alloc; "circuit {name}: not built\n"),
            Refusal::Gates { name, gates } => format!(in alloc; "circuit {name}: gates {gates}\n"),
            Refusal::Values { name, line, cause } => {
                let cause = values_word(*cause);
                format!(in alloc; "values {name}: line {line}: {cause}\n")
            }
            Refusal::File { name, cause } => {
                let cause = cause.word();
                format!(in alloc; "file {name}: {cause}\n")
            }
            Refusal::Part {
                prefix,
                party,
                cause,
            } => part_line(alloc, prefix, *party, *cause),
            Refusal::Dealer {
                prefix,
                party,
                fault,
            } => dealer_line(alloc, prefix, *party, *fault),
            Refusal::Few(few) => few_line(alloc, *few),
            Refusal::Memory => String::from_str(alloc, "memory\n"),
        }
    }
}

impl From<AllocError> for Refusal<'_> {
    ghost use Rattle.std.specs.Prelude.{◌≡◌};
    ghost use Rattle.command_ends.specs.declared.refusal.Refusal.TheVariants.{Memory};

    ghost from_gives = { λ _ refusal. refusal ≡ Memory };

    fn from(_error: AllocError) -> Self {
        Refusal::Memory
    }
}

impl<T: Drop> From<AllocFailed<T>> for Refusal<'_> {
    ghost use Rattle.std.specs.Prelude.{◌≡◌};
    ghost use Rattle.command_ends.specs.declared.refusal.Refusal.TheVariants.{Memory};

    ghost from_gives = { λ _ refusal. refusal ≡ Memory };

    fn from(_error: AllocFailed<T>) -> Self {
        Refusal::Memory
    }
}

impl From<NoMemory> for Refusal<'_> {
    ghost use Rattle.std.specs.Prelude.{◌≡◌};
    ghost use Rattle.command_ends.specs.declared.refusal.Refusal.TheVariants.{Memory};

    ghost from_gives = { λ _ refusal. refusal ≡ Memory };

    fn from(_error: NoMemory) -> Self {
        Refusal::Memory
    }
}

impl From<TooFew> for Refusal<'_> {
    ghost use Rattle.std.specs.Prelude.{◌≡◌};
    ghost use Rattle.command_ends.specs.declared.refusal.Refusal.TheVariants.{Few};

    ghost from_gives = { λ few refusal. refusal ≡ Few few };

    fn from(few: TooFew) -> Self {
        Refusal::Few(few)
    }
}

impl From<WordsError> for Refusal<'_> {
    ghost use Rattle.std.specs.Prelude.{◌≡◌};
    ghost use Rattle.command_ends.specs.Refusal.{read_refused};

    ghost from_gives = { λ error refusal. refusal ≡ read_refused error };

    fn from(error: WordsError) -> Self {
        match error {
            WordsError::Usage => Refusal::Usage,
            WordsError::NoMemory => Refusal::Memory,
        }
    }
}
