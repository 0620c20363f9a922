ghost use Rattle.std.specs.Prelude.{◌≡◌, ◌<◌, ◌≤◌, ◌+◌, ◌/◌, ◌++◌, ℕ, List, Some, length, take, slice_get, [], false, IfOk, IfSome, OnOk, string_bytes, if◌then◌else◌};
ghost use Rattle.std.specs.Fmt.{digits};
ghost use Rattle.share_types.specs.Bits.{number};
ghost use Rattle.std.specs.List.{sum_by};
ghost use Rattle.mot_base.specs.Limits.{most_parties};
ghost use Rattle.circuit_tables.specs.Table.{asked, total_width};
ghost use Rattle.gate_tasks.specs.declared.report.PartyReport as spec;
ghost use Rattle.motion_cli.specs.Report.{hexadecimal_digits, PartyRun, output_line, output_lines, run_report, runs_report, needs_lines, needs_report};
ghost use Rattle.any_circuit.specs.Notation.{AreShort, AreNarrow};
ghost use Rattle.motion_cli.specs.Run.{IsRunOf, AreRunsOf};

use any_circuit::Notation;
use circuit_values::{OutputTable, Outputs, number_of};
use command_ends::push_digest;
use gate_plan::Plan;
use local_engine::PartyReport;
use mot_base::{NoMemory, Party};
use share_types::Needs;
use std::alloc::{AllocError, Global};
use std::fmt::Write;

/// The report of all outputs, whoever is told them.
pub(crate) fn report_all(
    alloc: Global,
    notation: Notation,
    outputs: &Outputs,
) -> Result<String, NoMemory>
    requires { AreShort notation outputs.now }
    ensures { IfOk result (λ text. string_bytes text ≡ output_lines notation outputs.now) }
{
    let mut text = String::new(alloc);
    push_outputs(&mut text, notation, outputs)?;
    Ok(text)
}

/// Adds the lines of outputs, in their order.
fn push_outputs(text: &mut String, notation: Notation, outputs: &Outputs) -> Result<(), AllocError>
    requires { AreShort notation outputs.now }
    ensures { OnOk result
        (string_bytes text.new ≡ string_bytes text.old ++ output_lines notation outputs.now) }
{
    for at in 0..outputs.len() {
        push_output(text, notation, outputs, at)?;
    }
    Ok(())
}

/// The report of all parties of a run, one after another: what each is told, and the digest of what it sent.
pub(crate) fn report_runs(
    alloc: Global,
    notation: Notation,
    table: &OutputTable,
    reports: &[PartyReport],
) -> Result<String, NoMemory>
    requires narrow { AreNarrow notation table.now }
    requires parties { length reports.now ≤ most_parties }
    requires widths { (p : ℕ) (report : spec.PartyReport) → slice_get reports.now p ≡ Some report →
        total_width (asked (Some (record { 0 = p })) table.now) ≡ sum_by (λ v. v.width) report.told }
    ensures { IfOk result (λ text. (runs : List PartyRun) × AreRunsOf table.now reports.now runs
        × (string_bytes text ≡ runs_report notation runs)) }
{
    let mut text = String::new(alloc);
    for at in 0..reports.len() {
        push_run(alloc, &mut text, notation, table, at as u8, &reports[at])?;
    }
    Ok(text)
}

/// Adds what is reported of a party.
fn push_run(
    alloc: Global,
    text: &mut String,
    notation: Notation,
    table: &OutputTable,
    party: u8,
    report: &PartyReport,
) -> Result<(), NoMemory>
    requires narrow { AreNarrow notation table.now }
    requires widths { total_width (asked (Some (record { 0 = party })) table.now)
        ≡ sum_by (λ v. v.width) report.now.told }
    ensures { OnOk result ((run : PartyRun) × IsRunOf table.now party report.now run
        × (string_bytes text.new ≡ string_bytes text.old ++ run_report notation run)) }
{
    let outputs = Outputs::cut(alloc, table, Some(Party(party)), report.told.as_slice())?;
    write!(text, "party {party}\n")?;
    push_outputs(text, notation, &outputs)?;
    push_digest(alloc, text, report.digest)?;
    Ok(())
}

/// The report of what a plan needs.
pub(crate) fn report_needs(alloc: Global, plan: &Plan) -> Result<String, NoMemory>
    ensures { IfOk result (λ text. string_bytes text ≡ needs_report plan.now) }
{
    let gates = plan.gates();
    let needs = plan.needs();
    let first = format!(in alloc; "gates {gates}\n")?;
    needs_behind(first, &needs)
}

/// A text with how many correlations of each kind are needed behind it.
fn needs_behind(text: String, needs: &Needs) -> Result<String, NoMemory>
    ensures { IfOk result (λ all. string_bytes all ≡ string_bytes text ++ needs_lines needs.now) }
{
    let mut text = text;
    let (mult, bit, shared, key) = (needs.mult, needs.bit, needs.shared, needs.key);
    write!(text, "mult {mult}\nbit {bit}\nshared {shared}\nkey {key}\n")?;
    Ok(text)
}

/// Adds the line of an output.
fn push_output(
    text: &mut String,
    notation: Notation,
    outputs: &Outputs,
    at: u32,
) -> Result<(), AllocError>
    requires at { at < length outputs.now }
    requires width { AreShort notation outputs.now }
    ensures { OnOk result (IfSome (slice_get outputs.now at) (λ output.
        string_bytes text.new ≡ string_bytes text.old ++ output_line notation output)) }
{
    match notation {
        Notation::Decimal => push_decimal(text, outputs, at),
        Notation::Hexadecimal => push_hexadecimal(text, outputs, at),
    }
}

/// Adds the line of an output, whose value is written in decimal digits.
fn push_decimal(text: &mut String, outputs: &Outputs, at: u32) -> Result<(), AllocError>
    requires at { at < length outputs.now }
    requires width { AreShort Notation.Decimal outputs.now }
    ensures { OnOk result (IfSome (slice_get outputs.now at) (λ output.
        string_bytes text.new ≡ string_bytes text.old ++ output_line Notation.Decimal output)) }
{
    let name = outputs.name(at);
    let value = number_of(outputs.bits(at));
    write!(text, "{name} = {value}\n")
}

/// Adds the line of an output, whose value is written in hexadecimal digits.
fn push_hexadecimal(text: &mut String, outputs: &Outputs, at: u32) -> Result<(), AllocError>
    requires at { at < length outputs.now }
    ensures { OnOk result (IfSome (slice_get outputs.now at) (λ output.
        string_bytes text.new ≡ string_bytes text.old ++ output_line Notation.Hexadecimal output)) }
{
    let name = outputs.name(at);
    write!(text, "{name} = 0x")?;
    push_digits(text, outputs.bits(at))?;
    text.push_str("\n")
}

/// Adds bits as hexadecimal digits, one for each four bits, the highest digit first.
fn push_digits(text: &mut String, bits: &[bool]) -> Result<(), AllocError>
    ensures { OnOk result (string_bytes text.new
        ≡ string_bytes text.old ++ hexadecimal_digits ((length bits.now + 3) / 4) bits.now) }
{
    let count = bits.len().div_ceil(4);
    for at in 0..count {
        push_digit(text, &bits[4 * (count - 1 - at)..])?;
    }
    Ok(())
}

/// Adds the digit of the first four bits, or of all where there are fewer.
fn push_digit(text: &mut String, bits: &[bool]) -> Result<(), AllocError>
    ensures { OnOk result (string_bytes text.new
        ≡ string_bytes text.old ++ digits 16 false (number (take 4 bits.now))) }
{
    let digit = number_of(&bits[..bits.len().min(4)]);
    write!(text, "{digit:x}")
}
