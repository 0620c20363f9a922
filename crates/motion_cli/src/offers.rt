ghost use Rattle.motion_cli.specs.Words.{AreRun};

use cli_words::{Command, Offer, OptionName};

/// The commands that the program runs, each with those of its options that it runs.
pub(crate) fn offers() -> &'static [Offer]
    ensures { AreRun result.now }
{
    &[
        Offer {
            command: Command::Plain,
            options: &[OptionName::As, OptionName::Parties],
        },
        Offer {
            command: Command::Needs,
            options: &[OptionName::As, OptionName::Parties],
        },
        Offer {
            command: Command::Deal,
            options: &[],
        },
        Offer {
            command: Command::Local,
            options: &[
                OptionName::As,
                OptionName::Parties,
                OptionName::Dealer,
                OptionName::Workers,
            ],
        },
    ]
}
