ghost use Rattle.std.specs.Prelude.{◌≡◌, map};
ghost use Rattle.mixed_circuit.specs.Line.{is_party, resolved, said};
ghost use Rattle.mixed_circuit.specs.Grammar.{adds};
ghost use Rattle.text_lines.specs.Gives.{Gives};
ghost use Rattle.mixed_circuit.specs.Stated.{stated, AreWhole};

use crate::builder::Builder;
use crate::cause::CircuitCause;
use crate::operand::{sharing_of_all, width_of_all};
use crate::raw::{Raw, raw_of};
use crate::statement::statement_said;
use mixed_language::NewStatement;
use std::alloc::Global;
use text_lines::{LineError, check};

/// The circuit with the statement that the words of a line say.
#[tactic(auto, unfolding(crate::specs::Grammar::adds))]
pub fn with_line<'a>(
    alloc: Global,
    builder: Builder<'a>,
    words: &[&'a [u8]],
) -> Result<Builder<'a>, LineError<CircuitCause>>
    ensures { Gives (λ b. b) result (adds builder.entry (map (λ word. word.now) words.entry.now)) }
{
    let said = statement_of_words(alloc, &builder, words)?;
    let next = builder.with_statement(alloc, said)?;
    Ok(next)
}

/// The statement that the words of a line say behind those of a circuit.
#[tactic(auto, unfolding(crate::specs::Line::said))]
fn statement_of_words<'a>(
    alloc: Global,
    builder: &Builder,
    words: &[&'a [u8]],
) -> Result<NewStatement<'a>, LineError<CircuitCause>>
    ensures { Gives (λ s. s) result (said builder.now (map (λ word. word.now) words.entry.now)) }
{
    let raw = raw_of(alloc, words)?;
    let statement = statement_of_raw(alloc, builder, &raw)?;
    check(builder.has_room(), CircuitCause::TooMany)?;
    Ok(statement)
}

/// The statement that what a line states means behind those of a circuit.
#[tactic(auto, unfolding(crate::specs::Line::resolved))]
fn statement_of_raw<'a>(
    alloc: Global,
    builder: &Builder,
    raw: &Raw<'a>,
) -> Result<NewStatement<'a>, LineError<CircuitCause>>
    requires { AreWhole (stated raw.now) }
    ensures { Gives (λ s. s) result (resolved builder.now (stated raw.now)) }
{
    check(
        is_party_of(builder.parties(), raw.party),
        CircuitCause::BadParty,
    )?;
    check(builder.is_new(raw.name), CircuitCause::NameTwice)?;
    let operands = builder.operands(alloc, &raw.operands)?;
    let sharing = sharing_of_all(raw, &operands).ok_or(CircuitCause::WrongSharing)?;
    let width = width_of_all(raw.operation.widths(), raw, &operands).ok_or(
        CircuitCause::WrongWidth,
    )?;
    Ok(statement_said(raw, &operands, sharing, width))
}

/// Whether a party, if one is stated, is one of so many.
fn is_party_of(parties: u8, party: Option<u64>) -> bool
    ensures { result ≡ is_party parties party }
{
    match party {
        Some(party) => party < u64::from(parties),
        None => true,
    }
}
