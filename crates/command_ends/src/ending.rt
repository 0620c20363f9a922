ghost use Rattle.std.specs.Prelude.{◌≡◌, ◌≢◌, ◌≤◌};
ghost use Rattle.mot_base.specs.Faults.{Rose};
ghost use Rattle.command_ends.specs.Ending.{cut_status, Writes, IsWritten};
ghost use Rattle.command_ends.specs.Outcome.{Outcome};
ghost use Rattle.command_ends.specs.Refusal.{status_of, outcome_of, came_to};

use crate::refusal::Refusal;
use crate::status::Status;
use mot_base::{Sink, write_all};
use std::alloc::Global;

/// Writes what a command came to, and gives the number that the process ends with. Where there is no memory
/// for the line of a refusal other than the usage, that is the refusal.
pub fn end<S: Sink>(alloc: Global, out: &mut S, outcome: Result<String, Refusal<'_>>) -> u8
    ensures written { IsWritten
        (S.appended out.old) (S.appended out.new) (Rose (S.faults out.old) (S.faults out.new))
        (came_to outcome.entry) result }
    ensures never_falls { S.faults out.old ≤ S.faults out.new }
{
    match outcome {
        Ok(report) => write_text(out, report.as_str(), Status::Done, Status::Write),
        Err(Refusal::Usage) => write_text(out, "usage\n", Status::Usage, Status::Usage),
        Err(refusal) => end_refused(alloc, out, refusal),
    }
}

/// Writes the line of a refusal.
fn end_refused<S: Sink>(alloc: Global, out: &mut S, refusal: Refusal<'_>) -> u8
    requires { status_of refusal ≢ Status.Usage }
    ensures written { IsWritten
        (S.appended out.old) (S.appended out.new) (Rose (S.faults out.old) (S.faults out.new))
        (outcome_of refusal.entry) result }
    ensures never_falls { S.faults out.old ≤ S.faults out.new }
{
    let status = refusal.status();
    match refusal.line(alloc) {
        Ok(line) => write_text(out, line.as_str(), status, status),
        Err(_) => write_text(out, "memory\n", Status::Memory, Status::Memory),
    }
}

/// Writes a text, and gives the number of the one status, or of the other where it is cut.
fn write_text<S: Sink>(out: &mut S, text: &str, whole: Status, cut: Status) -> u8
    ensures written { (end : Outcome) → end.text ≡ text.now → end.status ≡ whole →
        cut_status end.kind end.status ≡ cut →
        Writes (S.appended out.old) (S.appended out.new) (Rose (S.faults out.old) (S.faults out.new))
        end result }
    ensures never_falls { S.faults out.old ≤ S.faults out.new }
{
    match write_all(out, text.as_bytes()) {
        Ok(()) => whole.code(),
        Err(_) => cut.code(),
    }
}
