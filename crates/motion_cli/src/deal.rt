//! The command `deal`: the parts of all parties are drawn and stored.

ghost use Rattle.std.specs.Prelude.{◌≡◌, ◌≤◌, ◌⊎◌, ◌∷◌, [], map, codes, Some, None, All, OnOk, IfOk, IfErr, string_bytes};
ghost use Rattle.mot_base.specs.Faults.{Rose};
ghost use Rattle.mot_base.specs.Limits.{most_file_bytes};
ghost use Rattle.cli_words.specs.Request.{deal_request};
ghost use Rattle.dealer_files.specs.Part.{counts_of};
ghost use Rattle.dealer_files.specs.File.{file_length};
ghost use Rattle.command_ends.specs.Coming.{Came, IsStopped};
ghost use Rattle.motion_cli.specs.Commands.{DealEnds};
ghost use Rattle.command_ends.specs.Ending.{AreLeft};
ghost use Rattle.command_ends.specs.Outcome.{file_refused, memory, part_name};
ghost use Rattle.motion_cli.specs.Parts.{part_file, part_length, counts_asked, deal_files, dealt_line};
ghost use Rattle.command_ends.specs.Refusal.{came_to, outcome_of};

use cli_words::DealWords;
use command_ends::{FileCause, Refusal};
use dealer_files::{DealerPart, dealer_len, write_dealer};
use dealer_maker::deal;
use mot_base::{FileError, Files, MAX_FILE_LENGTH, NoMemory, derive};
use share_types::Needs;
use std::alloc::Global;

/// The label under which the seed of the dealer's tape is derived. A party's is its number.
pub(crate) const DEALER: u8 = 255;

/// The report of `deal`, once the parts of all parties are stored.
pub(crate) fn deal_report<'a, F: Files>(
    alloc: Global,
    words: &'a DealWords,
    files: &mut F,
) -> Result<String, Refusal<'a>>
    ensures came { Came
        (DealEnds (F.holds files.old) (Rose (F.faults files.old) (F.faults files.new))
        (deal_request words.entry.now))
        (deal_files (deal_request words.entry.now)) (F.holds files.old) (F.holds files.new) (came_to result) }
    ensures never_falls { F.faults files.old ≤ F.faults files.new }
{
    let counts = counts_asked(words);
    if dealer_len(words.parties, &counts) > MAX_FILE_LENGTH as u64 {
        return Err(Refusal::Part {
            prefix: words.prefix.as_str(),
            party: 0,
            cause: FileCause::TooLong,
        });
    }
    deal_and_store(alloc, words, &counts, files)
}

/// The same, where no part is too long.
fn deal_and_store<'a, F: Files>(
    alloc: Global,
    words: &'a DealWords,
    counts: &Needs,
    files: &mut F,
) -> Result<String, Refusal<'a>>
    requires counts { counts.now ≡ counts_asked (deal_request words.now) }
    requires fits { part_length (deal_request words.now) ≤ most_file_bytes }
    ensures came { Came
        (DealEnds (F.holds files.old) (Rose (F.faults files.old) (F.faults files.new))
        (deal_request words.entry.now))
        (deal_files (deal_request words.entry.now)) (F.holds files.old) (F.holds files.new) (came_to result) }
    ensures never_falls { F.faults files.old ≤ F.faults files.new }
{
    let parts = deal(alloc, words.parties, &derive(&words.seed, DEALER), counts)?;
    store_parts(alloc, words.prefix.as_str(), parts.as_slice(), files)?;
    let id = parts[0].id();
    Ok(dealt_line(alloc, words.parties, id)?)
}

/// How many records of each kind are asked for.
fn counts_asked(words: &DealWords) -> Needs
    ensures { result ≡ counts_asked (deal_request words.now) }
{
    Needs {
        mult: words.mult,
        bit: words.bit,
        shared: words.shared,
        key: words.key,
    }
}

/// Stores the files of parts, one after another.
fn store_parts<'a, F: Files>(
    alloc: Global,
    prefix: &'a str,
    parts: &[DealerPart],
    files: &mut F,
) -> Result<(), Refusal<'a>>
    requires { All (λ part. file_length part.parties (counts_of part) ≤ most_file_bytes) parts.now }
    ensures stored { OnOk result
        (AreLeft (F.holds files.old) (F.holds files.new)
        (map (part_file prefix.entry.now) parts.entry.now) None) }
    ensures stopped { IfErr result (λ refusal. IsStopped
        (Rose (F.faults files.old) (F.faults files.new)) (map (part_file prefix.entry.now) parts.entry.now)
        (F.holds files.old) (F.holds files.new) (outcome_of refusal)) }
    ensures never_falls { F.faults files.old ≤ F.faults files.new }
{
    for part in parts {
        store_part(alloc, prefix, part, files)?;
    }
    Ok(())
}

/// Stores the file of a part.
fn store_part<'a, F: Files>(
    alloc: Global,
    prefix: &'a str,
    part: &DealerPart,
    files: &mut F,
) -> Result<(), Refusal<'a>>
    requires { file_length part.now.parties (counts_of part.now) ≤ most_file_bytes }
    ensures stored { OnOk result (AreLeft (F.holds files.old) (F.holds files.new)
        (part_file prefix.entry.now part.entry.now ∷ []) None) }
    ensures torn { AreLeft (F.holds files.old) (F.holds files.new) []
        (Some (part_name prefix.entry.now part.entry.now.party)) }
    ensures cause { IfErr result (λ refusal. (Rose (F.faults files.old) (F.faults files.new)
        × (outcome_of refusal
        ≡ file_refused (part_name prefix.entry.now part.entry.now.party) (codes "fault")))
        ⊎ (outcome_of refusal ≡ memory)) }
    ensures never_falls { F.faults files.old ≤ F.faults files.new }
{
    let party = part.party().0;
    let name = part_name(alloc, prefix, party)?;
    let bytes = write_dealer(alloc, part)?;
    match files.store(alloc, name.as_str(), bytes.as_slice()) {
        Ok(()) => Ok(()),
        Err(FileError::NoMemory) => Err(Refusal::Memory),
        Err(FileError::Failed) => Err(Refusal::Part {
            prefix,
            party,
            cause: FileCause::Fault,
        }),
        Err(FileError::TooLong) => unreachable!(),
        Err(FileError::Missing) => unreachable!(),
    }
}

/// The name of the file of a party's part.
pub(crate) fn part_name(alloc: Global, prefix: &str, party: u8) -> Result<String, NoMemory>
    ensures { IfOk result (λ name. string_bytes name ≡ part_name prefix.now party) }
{
    Ok(format!(in alloc; "{prefix}.{party}")?)
}

/// The line that is reported of a deal of this number among so many parties.
fn dealt_line(alloc: Global, parties: u8, id: u64) -> Result<String, NoMemory>
    ensures { IfOk result (λ text. string_bytes text ≡ dealt_line parties id) }
{
    Ok(format!(in alloc; "dealt {parties} parts, id {id:016x}\n")?)
}
