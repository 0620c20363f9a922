//! The table of the commands and of their options.

ghost use Rattle.std.specs.Prelude.{◌≡◌};
ghost use Rattle.std.specs.List.{list_any};
ghost use Rattle.cli_words.specs.Table.{row, row_of, option_row, option_name, flag, commands, options, is_command, is_same, command_named};
ghost use Rattle.cli_words.specs.Grammar.{is_offered, is_run_with, takes_option};

/// A command of the program. Its row says which words it takes.
#[derive(Clone, Copy, Debug)]
pub enum Command {
    /// The plain evaluation of a circuit.
    Plain,
    /// The correlations that a circuit needs.
    Needs,
    /// Dealer parts.
    Deal,
    /// A run of all parties in this process.
    Local,
}

/// An option. Its row says how it is spelt, and what its value has to be.
///
/// `As` and `Parties` come together, and say that CIRCUIT is a Bristol text. `Dealer` is the name that the
/// files of dealer parts begin with. `Workers` is how many workers run the parties.
#[derive(Clone, Copy, Debug)]
pub enum OptionName {
    As,
    Parties,
    Dealer,
    Workers,
}

/// What a word has to be.
#[derive(Clone, Copy)]
pub(crate) enum Kind {
    /// The name of a file, or what names of files begin with.
    Name,
    /// 64 hexadecimal digits of either case.
    Seed,
    /// `B` or `Y`: the wires of a Bristol text are shared by XOR, or as BMR keys.
    Sharing,
    /// How many parties there are: 2 to 8.
    Parties,
    /// How many workers there are: 1 to 16.
    Workers,
    /// A number in decimal digits, from the one to the other.
    Number(u32, u32),
}

/// How many correlations of one kind are dealt.
const COUNT: Kind = Kind::Number(0, u32::MAX);

/// The row of a command: its name; the words that it takes, in order, each with what it is called and what
/// it has to be; and its options.
#[derive(Clone, Copy)]
pub(crate) struct Row {
    pub name: &'static str,
    pub words: &'static [(&'static str, Kind)],
    pub options: &'static [OptionName],
}

/// The row of an option: its name, how it is spelt, and what its value has to be.
#[derive(Clone, Copy)]
pub(crate) struct OptionRow {
    pub name: &'static str,
    pub flag: &'static str,
    pub kind: Kind,
}

/// A command that the caller runs, with those of its options that it runs. Of several offers of one
/// command each counts. An option that the command does not have counts for nothing.
#[derive(Clone, Copy, Debug)]
pub struct Offer {
    pub command: Command,
    pub options: &'static [OptionName],
}

impl Command {
    /// All commands.
    fn all() -> &'static [Command]
        ensures { result.now ≡ commands }
    {
        &[
            Command::Plain,
            Command::Needs,
            Command::Deal,
            Command::Local,
        ]
    }

    /// The row of the command.
    pub(crate) fn row(self) -> Row
        ensures { row_of result ≡ row self }
    {
        match self {
            Command::Plain => Row {
                name: "plain",
                words: &[("CIRCUIT", Kind::Name), ("VALUES", Kind::Name)],
                options: &[OptionName::As, OptionName::Parties],
            },
            Command::Needs => Row {
                name: "needs",
                words: &[("CIRCUIT", Kind::Name)],
                options: &[OptionName::As, OptionName::Parties],
            },
            Command::Deal => Row {
                name: "deal",
                words: &[
                    ("PREFIX", Kind::Name),
                    ("SEED", Kind::Seed),
                    ("PARTIES", Kind::Parties),
                    ("MULT", COUNT),
                    ("BIT", COUNT),
                    ("SHARED", COUNT),
                    ("KEY", COUNT),
                ],
                options: &[],
            },
            Command::Local => Row {
                name: "local",
                words: &[
                    ("CIRCUIT", Kind::Name),
                    ("VALUES", Kind::Name),
                    ("SEED", Kind::Seed),
                ],
                options: &[
                    OptionName::As,
                    OptionName::Parties,
                    OptionName::Dealer,
                    OptionName::Workers,
                ],
            },
        }
    }

    /// The command of a name.
    pub(crate) fn named(name: &str) -> Option<Command>
        ensures { result ≡ command_named name.now }
    {
        Command::all()
            .iter()
            .copied()
            .find(|command| command.row().name == name)
    }

    fn is(self, other: Command) -> bool
        ensures { result ≡ is_command self other }
    {
        self.row().name == other.row().name
    }
}

impl OptionName {
    /// All options, in the order in which they are listed.
    pub(crate) fn all() -> &'static [OptionName]
        ensures { result.now ≡ options }
    {
        &[
            OptionName::As,
            OptionName::Parties,
            OptionName::Dealer,
            OptionName::Workers,
        ]
    }

    /// The row of the option.
    pub(crate) fn row(self) -> OptionRow
        ensures name { result.name.now ≡ option_name self }
        ensures flag { result.flag.now ≡ flag self }
        ensures kind { result.kind ≡ (option_row self).kind }
    {
        match self {
            OptionName::As => OptionRow {
                name: "as",
                flag: "--as",
                kind: Kind::Sharing,
            },
            OptionName::Parties => OptionRow {
                name: "parties",
                flag: "--parties",
                kind: Kind::Parties,
            },
            OptionName::Dealer => OptionRow {
                name: "dealer",
                flag: "--dealer",
                kind: Kind::Name,
            },
            OptionName::Workers => OptionRow {
                name: "workers",
                flag: "--workers",
                kind: Kind::Workers,
            },
        }
    }

    pub(crate) fn is(self, other: OptionName) -> bool
        ensures { result ≡ is_same self other }
    {
        self.row().name == other.row().name
    }

    /// Whether the option is among these.
    fn is_among(self, options: &[OptionName]) -> bool
        ensures { result ≡ list_any (is_same self) options.now }
    {
        options.iter().any(|option| self.is(*option))
    }
}

/// Whether the command is one of those that are run.
pub(crate) fn is_offered(offers: &[Offer], command: Command) -> bool
    ensures { result ≡ is_offered offers.now command }
{
    offers.iter().any(|offer| offer.command.is(command))
}

/// Whether the command has the option, and it is run with it.
pub(crate) fn takes_option(offers: &[Offer], command: Command, option: OptionName) -> bool
    ensures { result ≡ takes_option offers.now command option }
{
    option.is_among(command.row().options) && is_run_with(offers, command, option)
}

/// Whether the option is run with the command.
fn is_run_with(offers: &[Offer], command: Command, option: OptionName) -> bool
    ensures { result ≡ is_run_with offers.now command option }
{
    offers.iter().any(|offer| offer.command.is(command) && option.is_among(offer.options))
}
