//! What the words of a line ask for.

ghost use Rattle.std.specs.Prelude.{◌≡◌, Some, None, option_map, unwrap_or, string_bytes, IfOk, IfErr, IsErrOf};
ghost use Rattle.std.specs.Option.{option_copied};
ghost use Rattle.cli_words.specs.Filled.{said_in};
ghost use Rattle.cli_words.specs.Request.{bristol_of, plain_request, needs_request, deal_request, local_request, request_of, bristol_said, both_of, plain_said, needs_said, deal_said, local_said, request_said};

use crate::WordsError;
use crate::fill::Filled;
use crate::table::{Command, OptionName};
use crate::words::{
    BristolWords, CommandWords, DealWords, LocalWords, NeedsWords, PartyCount, PlainWords,
    WireSharing, WorkerCount,
};
use mot_base::NoMemory;
use std::alloc::Global;

/// What a line of a command asks for.
pub(crate) fn request(
    alloc: Global,
    command: Command,
    line: &Filled<'_>,
) -> Result<CommandWords, WordsError>
    ensures ok { IfOk result (λ words. request_said command (said_in line.entry.now) ≡ Some (request_of words)) }
    ensures err { IsErrOf result WordsError.Usage → request_said command (said_in line.entry.now) ≡ None }
{
    match command {
        Command::Plain => Ok(CommandWords::Plain(plain_words(alloc, line)?)),
        Command::Needs => Ok(CommandWords::Needs(needs_words(alloc, line)?)),
        Command::Deal => Ok(CommandWords::Deal(deal_words(alloc, line)?)),
        Command::Local => Ok(CommandWords::Local(local_words(alloc, line)?)),
    }
}

/// The two options of a Bristol text: both are there or neither.
fn bristol(line: &Filled<'_>) -> Result<Option<BristolWords>, WordsError>
    ensures ok { IfOk result (λ bristol.
        bristol_said (said_in line.entry.now) ≡ Some (option_map bristol_of bristol)) }
    ensures err { IfErr result (λ error. (error ≡ WordsError.Usage)
        × (bristol_said (said_in line.entry.now) ≡ None)) }
{
    let sharing = line.sharing_of(OptionName::As)?;
    let parties = line.parties_of(OptionName::Parties)?;
    both_of(sharing, parties)
}

fn both_of(
    sharing: Option<WireSharing>,
    parties: Option<PartyCount>,
) -> Result<Option<BristolWords>, WordsError>
    ensures ok { IfOk result (λ bristol.
        both_of (option_map (λ w. w.sharing) sharing) (option_map (λ n. n.count) parties)
        ≡ Some (option_map bristol_of bristol)) }
    ensures err { IfErr result (λ error. (error ≡ WordsError.Usage)
        × (both_of (option_map (λ w. w.sharing) sharing) (option_map (λ n. n.count) parties) ≡ None)) }
{
    match (sharing, parties) {
        (None, None) => Ok(None),
        (Some(way), Some(parties)) => Ok(Some(BristolWords {
            sharing: way.sharing,
            parties: parties.count,
        })),
        _ => Err(WordsError::Usage),
    }
}

fn plain_words(alloc: Global, line: &Filled<'_>) -> Result<PlainWords, WordsError>
    ensures ok { IfOk result (λ words. plain_said (said_in line.entry.now) ≡ Some (plain_request words)) }
    ensures err { IsErrOf result WordsError.Usage → plain_said (said_in line.entry.now) ≡ None }
{
    let circuit = line.name(0)?;
    let values = line.name(1)?;
    let bristol = bristol(line)?;
    Ok(PlainWords {
        circuit: String::from_str(alloc, circuit)?,
        values: String::from_str(alloc, values)?,
        bristol,
    })
}

fn needs_words(alloc: Global, line: &Filled<'_>) -> Result<NeedsWords, WordsError>
    ensures ok { IfOk result (λ words. needs_said (said_in line.entry.now) ≡ Some (needs_request words)) }
    ensures err { IsErrOf result WordsError.Usage → needs_said (said_in line.entry.now) ≡ None }
{
    let circuit = line.name(0)?;
    let bristol = bristol(line)?;
    Ok(NeedsWords {
        circuit: String::from_str(alloc, circuit)?,
        bristol,
    })
}

fn deal_words(alloc: Global, line: &Filled<'_>) -> Result<DealWords, WordsError>
    ensures ok { IfOk result (λ words. deal_said (said_in line.entry.now) ≡ Some (deal_request words)) }
    ensures err { IsErrOf result WordsError.Usage → deal_said (said_in line.entry.now) ≡ None }
{
    let prefix = line.name(0)?;
    let seed = line.seed(1)?;
    let parties = line.parties(2)?;
    let mult = line.number(3)?;
    let bit = line.number(4)?;
    let shared = line.number(5)?;
    let key = line.number(6)?;
    Ok(DealWords {
        prefix: String::from_str(alloc, prefix)?,
        seed,
        parties: parties.count,
        mult,
        bit,
        shared,
        key,
    })
}

fn local_words(alloc: Global, line: &Filled<'_>) -> Result<LocalWords, WordsError>
    ensures ok { IfOk result (λ words. local_said (said_in line.entry.now) ≡ Some (local_request words)) }
    ensures err { IsErrOf result WordsError.Usage → local_said (said_in line.entry.now) ≡ None }
{
    let circuit = line.name(0)?;
    let values = line.name(1)?;
    let seed = line.seed(2)?;
    let bristol = bristol(line)?;
    let dealer = line.name_of(OptionName::Dealer)?;
    let workers = or_one(line.workers_of(OptionName::Workers)?);
    Ok(LocalWords {
        circuit: String::from_str(alloc, circuit)?,
        values: String::from_str(alloc, values)?,
        seed,
        bristol,
        dealer: owned(alloc, dealer)?,
        workers: workers.count,
    })
}

/// So many workers, or one where the words say nothing of them.
fn or_one(workers: Option<WorkerCount>) -> WorkerCount
    ensures { result.count ≡ unwrap_or (option_map (λ w. w.count) workers) 1 }
{
    match workers {
        Some(workers) => workers,
        None => WorkerCount { count: 1 },
    }
}

/// A copy of a text that may be there.
fn owned(alloc: Global, text: Option<&str>) -> Result<Option<String>, NoMemory>
    ensures { IfOk result (λ copy. option_map string_bytes copy ≡ option_copied text.entry) }
{
    match text {
        Some(text) => Ok(Some(String::from_str(alloc, text)?)),
        None => Ok(None),
    }
}
