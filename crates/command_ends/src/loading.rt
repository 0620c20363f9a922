ghost use Rattle.std.specs.Prelude.{◌≡◌, ◌≤◌, ◌⊎◌, IfOk, IfErr};
ghost use Rattle.mot_base.specs.Faults.{Rose};
ghost use Rattle.command_ends.specs.Outcome.{memory};
ghost use Rattle.command_ends.specs.Refusal.{outcome_of};
ghost use Rattle.command_ends.specs.Steps.{IsContent, IsUnloaded, AreUnloaded};

use crate::refusal::{FileCause, Refusal};
use mot_base::{FileError, Files};
use std::alloc::Global;

/// Loads a file of the command.
pub fn load<'a, F: Files>(
    alloc: Global,
    files: &mut F,
    name: &'a str,
) -> Result<Vec<u8>, Refusal<'a>>
    ensures ok { IfOk result (λ bytes. IsContent (F.holds files.old) name.entry.now bytes.items) }
    ensures err { IfErr result (λ refusal.
        IsUnloaded (F.holds files.old) (Rose (F.faults files.old) (F.faults files.new))
        name.entry.now (outcome_of refusal)
        ⊎ (outcome_of refusal ≡ memory)) }
    ensures same { F.holds files.new ≡ F.holds files.old }
    ensures never_falls { F.faults files.old ≤ F.faults files.new }
{
    match files.load(alloc, name) {
        Ok(bytes) => Ok(bytes),
        Err(FileError::NoMemory) => Err(Refusal::Memory),
        Err(FileError::Missing) => Err(Refusal::File {
            name,
            cause: FileCause::Missing,
        }),
        Err(FileError::TooLong) => Err(Refusal::File {
            name,
            cause: FileCause::TooLong,
        }),
        Err(FileError::Failed) => Err(Refusal::File {
            name,
            cause: FileCause::Fault,
        }),
    }
}

/// Loads the circuit of a command and the values of its inputs, in this order.
pub fn load_both<'a, F: Files>(
    alloc: Global,
    files: &mut F,
    circuit: &'a str,
    values: &'a str,
) -> Result<(Vec<u8>, Vec<u8>), Refusal<'a>>
    ensures circuit { IfOk result (λ texts.
        IsContent (F.holds files.old) circuit.entry.now texts.0.items) }
    ensures values { IfOk result (λ texts.
        IsContent (F.holds files.old) values.entry.now texts.1.items) }
    ensures err { IfErr result (λ refusal.
        AreUnloaded (F.holds files.old) (Rose (F.faults files.old) (F.faults files.new))
        circuit.entry.now values.entry.now (outcome_of refusal)
        ⊎ (outcome_of refusal ≡ memory)) }
    ensures same { F.holds files.new ≡ F.holds files.old }
    ensures never_falls { F.faults files.old ≤ F.faults files.new }
{
    let circuit = load(alloc, files, circuit)?;
    let values = load(alloc, files, values)?;
    Ok((circuit, values))
}
