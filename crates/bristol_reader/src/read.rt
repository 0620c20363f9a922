ghost use Rattle.std.specs.Prelude.{◌≡◌, ◌≤◌, false, length, map, Ok, IfOk, IfErr};
ghost use Rattle.mot_base.specs.Limits.{most_file_bytes};
ghost use Rattle.bristol_reader.specs.Grammar.{EachReadsOrFaults, Reads, IsFirstFault, IsDone, circuit_of, read_last, behind_line, behind_words, behind_blank, ended};
ghost use Rattle.bristol_reader.specs.Read.{EachReadIsCircuit};
ghost use Rattle.text_lines.specs.Gives.{Gives, GivesAt};
ghost use Rattle.bristol_reader.specs.declared.stage.Stage.TheVariants.{Body};

use crate::builder::Builder;
use crate::cause::{BristolCause, BristolError};
use crate::circuit::Bristol;
use crate::header::{Heading, sizes_said, widths_said};
use crate::line::with_line;
use crate::stage::Stage;
use std::alloc::Global;
use text_lines::{LineError, Lines, are_allowed, check, words_of};

/// Reads a circuit in Bristol Fashion.
pub fn read_bristol(alloc: Global, bytes: &[u8]) -> Result<Bristol, BristolError>
    requires { length bytes.now ≤ most_file_bytes }
    ensures ok { IfOk result (λ c. Reads bytes.now c) }
    ensures at { IfErr result (λ error. IsFirstFault bytes.now error) }
{
    let mut lines = Lines::of(bytes);
    let Some(first) = lines.next_line() else {
        unreachable!()
    };
    let mut line = first;
    let mut stage = Stage::Start;
    let mut before: u32 = 0;
    while let Some(next) = lines.next_line() {
        stage = behind_numbered(alloc, stage, line, before + 1)?;
        line = next;
        before += 1;
    }
    circuit_behind(alloc, stage, line, before + 1)
}

/// Of every text exactly one is the case: it reads as one circuit, or one line and cause are its first fault.
pub fn each_text_reads_or_faults()
    ensures { EachReadsOrFaults }
{}

/// Each circuit that is read is one: its headers are in order, each gate fits behind those before it, and each output
/// wire is an input or set.
pub fn each_read_is_circuit()
    ensures { EachReadIsCircuit }
{}

/// The circuit behind the last line, whose number is given.
fn circuit_behind(
    alloc: Global,
    stage: Stage,
    line: &[u8],
    number: u32,
) -> Result<Bristol, BristolError>
    ensures { GivesAt (λ c. c) number result (read_last stage line.now) }
{
    match behind_line(alloc, true, stage, line) {
        Ok(done) => Ok(finished(done)),
        Err(error) => Err(error.at(number)),
    }
}

/// The circuit that stands behind the last line.
fn finished(stage: Stage) -> Bristol
    requires { IsDone stage }
    ensures { circuit_of stage ≡ Ok result }
{
    match stage {
        Stage::Body(builder) => builder.finish(),
        Stage::Start | Stage::Sized(_) | Stage::Entered(_) => unreachable!(),
    }
}

/// What is read behind a line that is not the last, whose number is given.
fn behind_numbered(
    alloc: Global,
    stage: Stage,
    line: &[u8],
    number: u32,
) -> Result<Stage, BristolError>
    ensures { GivesAt (λ s. s) number result (behind_line false stage line.now) }
{
    match behind_line(alloc, false, stage, line) {
        Ok(next) => Ok(next),
        Err(error) => Err(error.at(number)),
    }
}

/// What is read behind a line, of which it is told whether it is the last.
#[tactic(auto, unfolding(crate::specs::Grammar::behind_line))]
fn behind_line(
    alloc: Global,
    last: bool,
    stage: Stage,
    line: &[u8],
) -> Result<Stage, LineError<BristolCause>>
    ensures { Gives (λ s. s) result (behind_line last stage line.now) }
{
    check(are_allowed(line), BristolCause::NotText)?;
    let words = words_of(alloc, line)?;
    if words.is_empty() {
        behind_blank(last, stage)
    } else {
        behind_words(alloc, last, stage, &words)
    }
}

/// What is read behind a line of no words.
fn behind_blank(last: bool, stage: Stage) -> Result<Stage, LineError<BristolCause>>
    ensures { Gives (λ s. s) result (behind_blank last stage) }
{
    match stage {
        Stage::Body(builder) => ended(last, builder),
        _ => {
            check(!last, BristolCause::Header)?;
            Ok(stage)
        }
    }
}

/// What is read behind the words of a line.
#[tactic(auto, unfolding(crate::specs::Grammar::behind_words))]
fn behind_words(
    alloc: Global,
    last: bool,
    stage: Stage,
    words: &[&[u8]],
) -> Result<Stage, LineError<BristolCause>>
    ensures { Gives (λ s. s) result (behind_words last stage (map (λ word. word.now) words.now)) }
{
    match stage {
        Stage::Start => {
            let sizes = sizes_said(alloc, last, words)?;
            Ok(Stage::Sized(sizes))
        }
        Stage::Sized(sizes) => {
            let inputs = widths_said(alloc, last, sizes.wires, words)?;
            Ok(Stage::Entered(Heading { sizes, inputs }))
        }
        Stage::Entered(heading) => {
            let outputs = widths_said(alloc, false, heading.sizes.wires, words)?;
            let builder = Builder::new(alloc, heading, outputs)?;
            ended(last, builder)
        }
        Stage::Body(builder) => behind_gate(alloc, last, builder, words),
    }
}

/// What is read behind the words of a gate's line.
#[tactic(auto, unfolding(crate::specs::Grammar::behind_words))]
fn behind_gate(
    alloc: Global,
    last: bool,
    builder: Builder,
    words: &[&[u8]],
) -> Result<Stage, LineError<BristolCause>>
    ensures { Gives (λ s. s) result (behind_words last (Body builder) (map (λ word. word.now) words.now)) }
{
    let count = builder.len();
    check(!last || count + 1 >= builder.stated(), BristolCause::Counts)?;
    if count >= builder.stated() {
        return Err(LineError::Shows(BristolCause::Leftover));
    }
    let next = with_line(alloc, builder, words)?;
    ended(last, next)
}

/// What is read behind the third header line or a later one, of which it is told whether it is the last.
#[tactic(auto, unfolding(crate::specs::Grammar::ended))]
fn ended(last: bool, builder: Builder) -> Result<Stage, LineError<BristolCause>>
    ensures { Gives (λ s. s) result (ended last builder) }
{
    check(
        !last || builder.len() >= builder.stated(),
        BristolCause::Counts,
    )?;
    check(
        !last || builder.are_outputs_set(),
        BristolCause::OutputUnset,
    )?;
    Ok(Stage::Body(builder))
}
