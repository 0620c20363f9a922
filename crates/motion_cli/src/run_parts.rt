//! The parts of a deal that a run takes: dealt for it, or loaded from files and judged.

ghost use Rattle.std.specs.Prelude.{◌≡◌, ◌≢◌, ◌<◌, ◌≤◌, ◌⊎◌, length, map, get_or, Some, None, option_map, OnOk, IfOk, IfErr};
ghost use Rattle.mot_base.specs.Faults.{Rose};
ghost use Rattle.mot_base.specs.Limits.{most_parties};
ghost use Rattle.share_types.specs.declared.needs.Kind.{Kind};
ghost use Rattle.share_types.specs.Needs.{count_of, IsFirstShort};
ghost use Rattle.plan_gates.specs.Needs.{all_needs};
ghost use Rattle.any_circuit.specs.Circuits as any;
ghost use Rattle.any_circuit.specs.Circuits.{Circuit, parties_of};
ghost use Rattle.motion_cli.specs.Dealer.{part_names, differs, count_difference, difference, Holds, Shows, AreRead, stock_of, shortage, AreTaken, IsUntaken, IsDealerFault};
ghost use Rattle.command_ends.specs.Outcome.{memory, part_name};
ghost use Rattle.command_ends.specs.Refusal.{outcome_of, dealer_refused, few_refused};
ghost use Rattle.command_ends.specs.Steps.{IsContent, IsUnloaded, AreContents, IsFirstUnloaded};

use crate::deal::{DEALER, part_name};
use command_ends::{Difference, Field, FileCause, PartFault, Refusal};
use dealer_files::{DealerError, DealerPart, read_dealer};
use dealer_maker::deal;
use gate_plan::Plan;
use mot_base::{FileError, Files, Seed, derive};
use share_types::Needs;
use std::alloc::Global;

/// Loads the files of all parties' parts that the words name, in the order of the parties.
pub(crate) fn load_parts<'a, F: Files>(
    alloc: Global,
    files: &mut F,
    prefix: Option<&'a str>,
    parties: u8,
) -> Result<Vec<Vec<u8>>, Refusal<'a>>
    ensures ok { IfOk result (λ texts. AreContents (F.holds files.old)
        (part_names (option_map (λ text. text.now) prefix.entry) parties)
        (map (λ text. text.items) texts.items)) }
    ensures err { IfErr result (λ refusal.
        IsFirstUnloaded (F.holds files.old) (Rose (F.faults files.old) (F.faults files.new))
        (part_names (option_map (λ text. text.now) prefix.entry) parties) (outcome_of refusal)
        ⊎ (outcome_of refusal ≡ memory)) }
    ensures same { F.holds files.new ≡ F.holds files.old }
    ensures never_falls { F.faults files.old ≤ F.faults files.new }
{
    match prefix {
        None => Ok(Vec::new(alloc)),
        Some(prefix) => load_all(alloc, files, prefix, parties),
    }
}

/// Loads the files of all parties' parts.
fn load_all<'a, F: Files>(
    alloc: Global,
    files: &mut F,
    prefix: &'a str,
    parties: u8,
) -> Result<Vec<Vec<u8>>, Refusal<'a>>
    ensures ok { IfOk result (λ texts. AreContents (F.holds files.old)
        (part_names (Some prefix.entry.now) parties) (map (λ text. text.items) texts.items)) }
    ensures err { IfErr result (λ refusal.
        IsFirstUnloaded (F.holds files.old) (Rose (F.faults files.old) (F.faults files.new))
        (part_names (Some prefix.entry.now) parties) (outcome_of refusal)
        ⊎ (outcome_of refusal ≡ memory)) }
    ensures same { F.holds files.new ≡ F.holds files.old }
    ensures never_falls { F.faults files.old ≤ F.faults files.new }
{
    let mut texts = Vec::with_capacity(alloc, usize::from(parties))?;
    for party in 0..parties {
        let text = load_part(alloc, files, prefix, party)?;
        texts.push(text)?;
    }
    Ok(texts)
}

/// Loads the file of a party's part.
fn load_part<'a, F: Files>(
    alloc: Global,
    files: &mut F,
    prefix: &'a str,
    party: u8,
) -> Result<Vec<u8>, Refusal<'a>>
    ensures ok { IfOk result (λ bytes.
        IsContent (F.holds files.old) (part_name prefix.entry.now party) bytes.items) }
    ensures err { IfErr result (λ refusal.
        IsUnloaded (F.holds files.old) (Rose (F.faults files.old) (F.faults files.new))
        (part_name prefix.entry.now party) (outcome_of refusal)
        ⊎ (outcome_of refusal ≡ memory)) }
    ensures same { F.holds files.new ≡ F.holds files.old }
    ensures never_falls { F.faults files.old ≤ F.faults files.new }
{
    let name = part_name(alloc, prefix, party)?;
    let cause = match files.load(alloc, name.as_str()) {
        Ok(bytes) => return Ok(bytes),
        Err(FileError::NoMemory) => return Err(Refusal::Memory),
        Err(FileError::Missing) => FileCause::Missing,
        Err(FileError::TooLong) => FileCause::TooLong,
        Err(FileError::Failed) => FileCause::Fault,
    };
    Err(Refusal::Part {
        prefix,
        party,
        cause,
    })
}

/// The parts of a run of a plan: exactly what it needs, dealt under the seed of the run, or those of the files, if there
/// are as many records as it needs.
pub(crate) fn parts_of<'a>(
    alloc: Global,
    prefix: Option<&'a str>,
    seed: &Seed,
    plan: &Plan,
    files: &[Vec<u8>],
) -> Result<Vec<DealerPart>, Refusal<'a>>
    requires files { length files.now
        ≡ length (part_names (option_map (λ text. text.now) prefix) plan.now.parties) }
    ensures taken { (c : Circuit) → plan.now ≡ any.plan_of c → plan.now.parties ≡ parties_of c →
        IfOk result (λ parts.
        AreTaken (option_map (λ text. text.now) prefix.entry) seed.now.0 c
        (map (λ text. text.items) files.now) parts.items) }
    ensures err { (c : Circuit) → plan.now ≡ any.plan_of c → plan.now.parties ≡ parties_of c →
        IfErr result (λ refusal.
        IsUntaken (option_map (λ text. text.now) prefix.entry) c
        (map (λ text. text.items) files.now) (outcome_of refusal)
        ⊎ (outcome_of refusal ≡ memory)) }
{
    match prefix {
        None => Ok(deal(alloc, plan.parties(), &derive(seed, DEALER), &plan.needs())?),
        Some(prefix) => {
            let parts = read_parts(alloc, prefix, plan.parties(), files)?;
            judge_stock(plan, parts.as_slice())?;
            Ok(parts)
        }
    }
}

/// Refuses parts that have fewer records of a kind than a plan needs.
fn judge_stock<'a>(plan: &Plan, parts: &[DealerPart]) -> Result<(), Refusal<'a>>
    requires { 0 < length parts.now }
    ensures enough { OnOk result
        ((kind : Kind) → count_of (all_needs plan.now) kind ≤ count_of (stock_of parts.now) kind) }
    ensures short { IfErr result (λ refusal. (kind : Kind)
        × IsFirstShort (all_needs plan.now) (stock_of parts.now) kind
        × (outcome_of refusal ≡ few_refused (shortage (all_needs plan.now) (stock_of parts.now) kind))) }
{
    plan.needs().within(&parts[0].counts())?;
    Ok(())
}

/// Reads the files of all parties' parts, and compares each part with what is expected of it.
fn read_parts<'a>(
    alloc: Global,
    prefix: &'a str,
    parties: u8,
    files: &[Vec<u8>],
) -> Result<Vec<DealerPart>, Refusal<'a>>
    requires { length files.now ≤ most_parties }
    ensures read { IfOk result (λ parts. AreRead parties (map (λ text. text.items) files.now) parts.items) }
    ensures err { IfErr result (λ refusal.
        IsDealerFault prefix.entry.now parties (map (λ text. text.items) files.now) (outcome_of refusal)
        ⊎ (outcome_of refusal ≡ memory)) }
{
    let mut parts = Vec::with_capacity(alloc, files.len())?;
    for file in files {
        let part = read_part(alloc, prefix, parties, parts.as_slice(), file.as_slice())?;
        parts.push(part)?;
    }
    Ok(parts)
}

/// Reads the file of a party's part, and compares the part with those before it.
fn read_part<'a>(
    alloc: Global,
    prefix: &'a str,
    parties: u8,
    before: &[DealerPart],
    file: &[u8],
) -> Result<DealerPart, Refusal<'a>>
    requires { length before.now < most_parties }
    ensures read { IfOk result (λ part. Holds file.now part) }
    ensures same { IfOk result (λ part.
        difference parties (length before.now) (get_or before.now 0 part) part ≡ None) }
    ensures err { IfErr result (λ refusal. ((fault : PartFault) × Shows parties before.now file.now fault
        × (outcome_of refusal ≡ dealer_refused (part_name prefix.entry.now (length before.now)) fault))
        ⊎ (outcome_of refusal ≡ memory)) }
{
    let party = before.len() as u8;
    let part = match read_dealer(alloc, file) {
        Ok(part) => part,
        Err(cause) => return Err(unread(prefix, party, cause)),
    };
    if let Some(found) = judge_part(parties, before, &part) {
        return Err(Refusal::Dealer {
            prefix,
            party,
            fault: PartFault::Differs(found),
        });
    }
    Ok(part)
}

/// Why the file of a party's part was not read.
fn unread<'a>(prefix: &'a str, party: u8, cause: DealerError) -> Refusal<'a>
    ensures told { cause ≢ DealerError.NoMemory →
        outcome_of result ≡ dealer_refused (part_name prefix.entry.now party) (PartFault.Unread cause) }
    ensures memory { cause ≡ DealerError.NoMemory → outcome_of result ≡ memory }
{
    match cause {
        DealerError::NoMemory => Refusal::Memory,
        cause => Refusal::Dealer {
            prefix,
            party,
            fault: PartFault::Unread(cause),
        },
    }
}

/// The first field of a part that is not as expected, where these are the parts before it.
fn judge_part(parties: u8, before: &[DealerPart], part: &DealerPart) -> Option<Difference>
    requires { length before.now < most_parties }
    ensures { result ≡ difference parties (length before.now) (get_or before.now 0 part.now) part.now }
{
    let place = before.len() as u8;
    let first = before.first().unwrap_or(part);
    first_difference(parties, place, first, part)
}

/// The first field of the part at a place that is not as expected: its parties are the circuit's, its party is its place,
/// and its deal and its counts are those of the first part.
fn first_difference(
    parties: u8,
    place: u8,
    first: &DealerPart,
    part: &DealerPart,
) -> Option<Difference>
    ensures { result ≡ difference parties place first.now part.now }
{
    differs(
        Field::Parties,
        u64::from(parties),
        u64::from(part.parties()),
    )
    .or(differs(Field::Party, u64::from(place), u64::from(part.party().0)))
    .or(differs(Field::Id, first.id(), part.id()))
    .or(count_difference(&first.counts(), &part.counts()))
}

/// The first count that is not as expected.
fn count_difference(expected: &Needs, found: &Needs) -> Option<Difference>
    ensures { result ≡ count_difference expected.now found.now }
{
    count_differs(Field::Mult, expected.mult, found.mult)
        .or(count_differs(Field::Bit, expected.bit, found.bit))
        .or(count_differs(Field::Shared, expected.shared, found.shared))
        .or(count_differs(Field::Key, expected.key, found.key))
}

/// A count that is not as expected.
fn count_differs(field: Field, expected: u32, found: u32) -> Option<Difference>
    ensures { result ≡ differs field expected found }
{
    differs(field, u64::from(expected), u64::from(found))
}

/// A field that is not as expected.
fn differs(field: Field, expected: u64, found: u64) -> Option<Difference>
    ensures { result ≡ differs field expected found }
{
    if expected == found {
        return None;
    }
    Some(Difference {
        field,
        expected,
        found,
    })
}
