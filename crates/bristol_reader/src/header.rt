ghost use Rattle.std.specs.Prelude.{◌≡◌, ◌≤◌, map, sum, option_map, true, IfOk, IfSome};
ghost use Rattle.bristol_reader.specs.Grammar.{sizes_in, sizes_said, widths_of, widths_in, widths_said};
ghost use Rattle.bristol_reader.specs.Stored.{sizes_kept, widths_kept};
ghost use Rattle.text_lines.specs.Gives.{Gives};
ghost use Rattle.bristol_reader.specs.Built.{are_positive};

use crate::cause::BristolCause;
use crate::number::numbers;
use crate::widths::Widths;
use mot_base::{MAX_STATEMENTS, MAX_WIRES};
use std::alloc::Global;
use std::marker::Model;
use text_lines::{LineError, check};

/// What the first header line states: how many gates and how many wires.
#[derive(Debug, Drop)]
pub struct Sizes {
    pub gates: u32,
    pub wires: u32,
}

impl Model for Sizes {
    ghost use Rattle.std.specs.Prelude.{◌≤◌};
    ghost use Rattle.mot_base.specs.Limits.{most_statements, most_wires};
    ghost use Rattle.bristol_reader.specs.Circuit as circuit;

    ghost Value = { circuit.Sizes };

    ghost view = { λ s. record { gates = s.gates; wires = s.wires } };

    ghost invariant = { λ s. (s.gates ≤ most_statements) × (s.wires ≤ most_wires) };
}

/// What the first two header lines state.
#[derive(Debug, Drop)]
pub struct Heading {
    pub sizes: Sizes,
    pub inputs: Widths,
}

impl Model for Heading {
    ghost use Rattle.std.specs.Prelude.{◌≤◌, sum};
    ghost use Rattle.bristol_reader.specs.Circuit as circuit;

    ghost Value = { circuit.Heading };

    ghost view = { λ h. record { sizes = h.sizes; inputs = h.inputs } };

    ghost invariant = { λ h. sum h.inputs ≤ h.sizes.wires };
}

/// The sizes that the words of the first header line state. Whether the text ends with that line is given.
pub fn sizes_said(
    alloc: Global,
    ends: bool,
    words: &[&[u8]],
) -> Result<Sizes, LineError<BristolCause>>
    ensures { Gives (λ s. s) result (sizes_said ends (map (λ word. word.now) words.now)) }
{
    sizes_kept(alloc, ends, words)
}

/// The same, where each number is kept in 64 bits.
#[tactic(auto, unfolding(crate::specs::Stored::sizes_kept))]
fn sizes_kept(alloc: Global, ends: bool, words: &[&[u8]]) -> Result<Sizes, LineError<BristolCause>>
    ensures { Gives (λ s. s) result (sizes_kept ends (map (λ word. word.now) words.now)) }
{
    let numbers = numbers(alloc, words)?.ok_or(BristolCause::Header)?;
    let sizes = sizes_in(ends, &numbers)?;
    Ok(sizes)
}

/// The sizes that the numbers of the first header line state.
#[tactic(auto, unfolding(crate::specs::Grammar::sizes_in))]
fn sizes_in(ends: bool, numbers: &[u64]) -> Result<Sizes, BristolCause>
    ensures { result ≡ sizes_in ends numbers.now }
{
    let [gates, wires] = numbers else {
        return Err(BristolCause::Header);
    };
    if ends {
        return Err(BristolCause::Header);
    }
    if *gates > u64::from(MAX_STATEMENTS) || *wires > u64::from(MAX_WIRES) {
        return Err(BristolCause::TooMany);
    }
    Ok(Sizes {
        gates: *gates as u32,
        wires: *wires as u32,
    })
}

/// The widths that the words of another header line state, which have no more wires together than there are. Whether
/// the text ends with that line, before the third header line, is given.
pub fn widths_said(
    alloc: Global,
    ends: bool,
    wires: u32,
    words: &[&[u8]],
) -> Result<Widths, LineError<BristolCause>>
    ensures value { Gives (λ w. w) result (widths_said ends wires (map (λ word. word.now) words.now)) }
    ensures few { IfOk result (λ w. sum w ≤ wires) }
{
    widths_kept(alloc, ends, wires, words)
}

/// The same, where each number is kept in 64 bits.
#[tactic(auto, unfolding(crate::specs::Stored::widths_kept))]
fn widths_kept(
    alloc: Global,
    ends: bool,
    wires: u32,
    words: &[&[u8]],
) -> Result<Widths, LineError<BristolCause>>
    ensures value { Gives (λ w. w) result (widths_kept ends wires (map (λ word. word.now) words.now)) }
    ensures few { IfOk result (λ w. sum w ≤ wires) }
{
    let numbers = numbers(alloc, words)?.ok_or(BristolCause::Header)?;
    let widths = widths_in(alloc, ends, wires, &numbers)?;
    Ok(widths)
}

/// The widths that the numbers of another header line state.
#[tactic(auto, unfolding(crate::specs::Grammar::widths_in))]
fn widths_in(
    alloc: Global,
    ends: bool,
    wires: u32,
    numbers: &[u64],
) -> Result<Widths, LineError<BristolCause>>
    ensures value { Gives (λ w. w) result (widths_in ends wires numbers.now) }
    ensures few { IfOk result (λ w. sum w ≤ wires) }
{
    let widths = widths_of(numbers).ok_or(BristolCause::Header)?;
    check(!ends, BristolCause::Header)?;
    let within = Widths::within(alloc, widths, wires)?.ok_or(BristolCause::Counts)?;
    Ok(within)
}

/// The widths among numbers, where these are how many widths there are and then each of them, which is not 0.
fn widths_of(numbers: &[u64]) -> Option<&[u64]>
    ensures value { option_map (λ w. w.now) result ≡ widths_of numbers.entry.now }
    ensures positive { IfSome result (λ w. are_positive w.now ≡ true) }
{
    match numbers {
        [count, widths @ ..] => {
            if widths.len() as u64 == *count && are_all_positive(widths) {
                Some(widths)
            } else {
                None
            }
        }
        [] => None,
    }
}

fn are_all_positive(widths: &[u64]) -> bool
    ensures { result ≡ are_positive widths.now }
{
    widths.iter().all(|width| *width >= 1)
}
