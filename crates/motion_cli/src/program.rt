//! What the program does with the words after its name.

ghost use Rattle.std.specs.Prelude.{◌≡◌, ◌≢◌, ◌≤◌, IfOk};
ghost use Rattle.mot_base.specs.Faults.{Rose};
ghost use Rattle.cli_words.specs.Grammar.{texts};
ghost use Rattle.cli_words.specs.Request.{Request, command_of, request_of};
ghost use Rattle.command_ends.specs.Coming.{Came, ReadCame};
ghost use Rattle.motion_cli.specs.Commands.{RequestEnds, request_files};
ghost use Rattle.command_ends.specs.Ending.{outside};
ghost use Rattle.command_ends.specs.Refusal.{came_to};
ghost use Rattle.command_ends.specs.Settled.{EndsWell};
ghost use Rattle.motion_cli.specs.Words.{AsksFor, AsksBehind, NamesCommand, StoresNothing};

use crate::deal::deal_report;
use crate::local::local_report;
use crate::needs::needs_report;
use crate::offers::offers;
use crate::plain::plain_report;
use cli_words::{Command, CommandWords, WordsError, read_behind, read_words};
use command_ends::{Refusal, end};
use mot_base::{Files, Sink, Turnstile};
use std::alloc::Global;
use std::thread::Threads;

/// Does all that the program does with the words after its name, and answers the status that it ends with.
///
/// Where `local` is asked for more workers than one, each passes the gate with each stage that it runs.
pub fn motion<R: Threads + Sync, F: Files, S: Sink, G: Turnstile + Sync>(
    rt: &R,
    alloc: Global,
    words: &[String],
    files: &mut F,
    out: &mut S,
    gate: &G,
) -> u8
    ensures ends { EndsWell (AsksFor (texts words.entry.now)) RequestEnds request_files
        (outside (F.holds files.old) (F.faults files.old) (S.appended out.old) (S.faults out.old))
        (outside (F.holds files.new) (F.faults files.new) (S.appended out.new) (S.faults out.new)) result }
    ensures unnamed { ¬ (NamesCommand (texts words.entry.now)) → result ≡ 1 }
    ensures same { ((request : Request) → AsksFor (texts words.entry.now) request → StoresNothing request) →
        F.holds files.new ≡ F.holds files.old }
{
    let read = read_words(alloc, offers(), words);
    let outcome = run(rt, alloc, &read, files, gate);
    end(alloc, out, outcome)
}

/// What comes of the words after the program's name, as they were read.
fn run<'a, R: Threads + Sync, F: Files, G: Turnstile + Sync>(
    rt: &R,
    alloc: Global,
    read: &'a Result<CommandWords, WordsError>,
    files: &mut F,
    gate: &G,
) -> Result<String, Refusal<'a>>
    ensures came { ReadCame request_of
        (RequestEnds (F.holds files.old) (Rose (F.faults files.old) (F.faults files.new))) request_files
        (F.holds files.old) (F.holds files.new) read.entry.now (came_to result) }
    ensures same { IfOk read.entry.now (λ words. StoresNothing (request_of words)) →
        F.holds files.new ≡ F.holds files.old }
    ensures never_falls { F.faults files.old ≤ F.faults files.new }
{
    match read {
        Ok(words) => run_words(rt, alloc, words, files, gate),
        Err(error) => Err(Refusal::from(*error)),
    }
}

/// What comes of what the words ask for.
fn run_words<'a, R: Threads + Sync, F: Files, G: Turnstile + Sync>(
    rt: &R,
    alloc: Global,
    words: &'a CommandWords,
    files: &mut F,
    gate: &G,
) -> Result<String, Refusal<'a>>
    ensures came { Came
        (RequestEnds (F.holds files.old) (Rose (F.faults files.old) (F.faults files.new))
        (request_of words.entry.now))
        (request_files (request_of words.entry.now))
        (F.holds files.old) (F.holds files.new) (came_to result) }
    ensures same { StoresNothing (request_of words.entry.now) → F.holds files.new ≡ F.holds files.old }
    ensures never_falls { F.faults files.old ≤ F.faults files.new }
{
    match words {
        CommandWords::Local(words) => local_report(rt, alloc, words, files, gate),
        _ => run_alone(alloc, words, files),
    }
}

/// The same of a command that has no workers.
fn run_alone<'a, F: Files>(
    alloc: Global,
    words: &'a CommandWords,
    files: &mut F,
) -> Result<String, Refusal<'a>>
    requires { command_of (request_of words.now) ≢ Command.Local }
    ensures came { Came
        (RequestEnds (F.holds files.old) (Rose (F.faults files.old) (F.faults files.new))
        (request_of words.entry.now))
        (request_files (request_of words.entry.now))
        (F.holds files.old) (F.holds files.new) (came_to result) }
    ensures same { StoresNothing (request_of words.entry.now) → F.holds files.new ≡ F.holds files.old }
    ensures never_falls { F.faults files.old ≤ F.faults files.new }
{
    match words {
        CommandWords::Plain(words) => plain_report(alloc, words, files),
        CommandWords::Needs(words) => needs_report(alloc, words, files),
        CommandWords::Deal(words) => deal_report(alloc, words, files),
        CommandWords::Local(_) => unreachable!(),
    }
}

/// The call of a command that has no workers, with the words after its name.
fn call<F: Files, S: Sink>(
    alloc: Global,
    command: Command,
    words: &[String],
    files: &mut F,
    out: &mut S,
) -> u8
    requires { command ≢ Command.Local }
    ensures ends { EndsWell (AsksBehind command (texts words.entry.now)) RequestEnds request_files
        (outside (F.holds files.old) (F.faults files.old) (S.appended out.old) (S.faults out.old))
        (outside (F.holds files.new) (F.faults files.new) (S.appended out.new) (S.faults out.new)) result }
    ensures same { command ≢ Command.Deal → F.holds files.new ≡ F.holds files.old }
{
    let read = read_behind(alloc, offers(), command, words);
    let outcome = run_read(alloc, &read, files);
    end(alloc, out, outcome)
}

/// What comes of the words after the name of a command that has no workers, as they were read.
fn run_read<'a, F: Files>(
    alloc: Global,
    read: &'a Result<CommandWords, WordsError>,
    files: &mut F,
) -> Result<String, Refusal<'a>>
    requires { IfOk read.now (λ words. command_of (request_of words) ≢ Command.Local) }
    ensures came { ReadCame request_of
        (RequestEnds (F.holds files.old) (Rose (F.faults files.old) (F.faults files.new))) request_files
        (F.holds files.old) (F.holds files.new) read.entry.now (came_to result) }
    ensures same { IfOk read.entry.now (λ words. StoresNothing (request_of words)) →
        F.holds files.new ≡ F.holds files.old }
    ensures never_falls { F.faults files.old ≤ F.faults files.new }
{
    match read {
        Ok(words) => run_alone(alloc, words, files),
        Err(error) => Err(Refusal::from(*error)),
    }
}

/// The command `plain`, with the words after it.
pub fn plain_command<F: Files, S: Sink>(
    alloc: Global,
    words: &[String],
    files: &mut F,
    out: &mut S,
) -> u8
    ensures ends { EndsWell (AsksBehind Command.Plain (texts words.entry.now)) RequestEnds request_files
        (outside (F.holds files.old) (F.faults files.old) (S.appended out.old) (S.faults out.old))
        (outside (F.holds files.new) (F.faults files.new) (S.appended out.new) (S.faults out.new)) result }
    ensures same { F.holds files.new ≡ F.holds files.old }
{
    call(alloc, Command::Plain, words, files, out)
}

/// The command `needs`, with the words after it.
pub fn needs_command<F: Files, S: Sink>(
    alloc: Global,
    words: &[String],
    files: &mut F,
    out: &mut S,
) -> u8
    ensures ends { EndsWell (AsksBehind Command.Needs (texts words.entry.now)) RequestEnds request_files
        (outside (F.holds files.old) (F.faults files.old) (S.appended out.old) (S.faults out.old))
        (outside (F.holds files.new) (F.faults files.new) (S.appended out.new) (S.faults out.new)) result }
    ensures same { F.holds files.new ≡ F.holds files.old }
{
    call(alloc, Command::Needs, words, files, out)
}

/// The command `deal`, with the words after it.
pub fn deal_command<F: Files, S: Sink>(
    alloc: Global,
    words: &[String],
    files: &mut F,
    out: &mut S,
) -> u8
    ensures { EndsWell (AsksBehind Command.Deal (texts words.entry.now)) RequestEnds request_files
        (outside (F.holds files.old) (F.faults files.old) (S.appended out.old) (S.faults out.old))
        (outside (F.holds files.new) (F.faults files.new) (S.appended out.new) (S.faults out.new)) result }
{
    call(alloc, Command::Deal, words, files, out)
}

/// The command `local`, with the words after it. Of more workers than one, each passes the gate with each stage that it
/// runs.
pub fn local_command<R: Threads + Sync, F: Files, S: Sink, G: Turnstile + Sync>(
    rt: &R,
    alloc: Global,
    words: &[String],
    files: &mut F,
    out: &mut S,
    gate: &G,
) -> u8
    ensures ends { EndsWell (AsksBehind Command.Local (texts words.entry.now)) RequestEnds request_files
        (outside (F.holds files.old) (F.faults files.old) (S.appended out.old) (S.faults out.old))
        (outside (F.holds files.new) (F.faults files.new) (S.appended out.new) (S.faults out.new)) result }
    ensures same { F.holds files.new ≡ F.holds files.old }
{
    let read = read_behind(alloc, offers(), Command::Local, words);
    let outcome = run(rt, alloc, &read, files, gate);
    end(alloc, out, outcome)
}
