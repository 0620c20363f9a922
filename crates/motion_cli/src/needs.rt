//! The command `needs`: the correlations that a circuit needs.

ghost use Rattle.std.specs.Prelude.{◌≡◌, ◌≤◌, ◌⊎◌, length};
ghost use Rattle.mot_base.specs.Faults.{Rose};
ghost use Rattle.mot_base.specs.Limits.{most_file_bytes};
ghost use Rattle.cli_words.specs.Request.{needs_request};
ghost use Rattle.command_ends.specs.Outcome.{memory};
ghost use Rattle.command_ends.specs.Refusal.{came_to};
ghost use Rattle.motion_cli.specs.Commands.{NeedsReads, NeedsEnds};

use crate::commands::{circuit_of, plan_of};
use crate::report::report_needs;
use cli_words::NeedsWords;
use command_ends::{Refusal, load};
use mot_base::Files;
use std::alloc::Global;

/// The report of `needs`: how many gates the circuit has, and how many correlations of each kind they need.
pub(crate) fn needs_report<'a, F: Files>(
    alloc: Global,
    words: &'a NeedsWords,
    files: &mut F,
) -> Result<String, Refusal<'a>>
    ensures came { NeedsEnds (F.holds files.old) (Rose (F.faults files.old) (F.faults files.new))
        (needs_request words.entry.now) (came_to result)
        ⊎ (came_to result ≡ memory) }
    ensures same { F.holds files.new ≡ F.holds files.old }
    ensures never_falls { F.faults files.old ≤ F.faults files.new }
{
    let text = load(alloc, files, words.circuit.as_str())?;
    needs_of_text(alloc, words, text)
}

/// The same, once the file is loaded.
fn needs_of_text<'a>(
    alloc: Global,
    words: &'a NeedsWords,
    text: Vec<u8>,
) -> Result<String, Refusal<'a>>
    requires { length text.items ≤ most_file_bytes }
    ensures { NeedsReads (needs_request words.entry.now) text.items (came_to result)
        ⊎ (came_to result ≡ memory) }
{
    let circuit = circuit_of(alloc, words.circuit.as_str(), words.bristol, text)?;
    let plan = plan_of(alloc, words.circuit.as_str(), &circuit)?;
    Ok(report_needs(alloc, &plan)?)
}
