ghost use Rattle.std.specs.Prelude.{◌≡◌, ◌<◌, ◌≤◌, ◌↔◌, ◌∷◌, ◌++◌, [], None, length, vec_len, IfOk, IsErrOf, if◌then◌else◌};
ghost use Rattle.mot_base.specs.Faults.{one_more};
ghost use Rattle.mot_base.specs.Limits.{most_file_bytes};

use crate::call_log::{CallLog, CallMade};
use crate::files::has_failed;
use crate::{Failed, FileAction, FileError, Files, MAX_FILE_LENGTH, Sink};
use std::alloc::Global;
use std::io::{ErrorKind, Print, Read};
use std::{fs, io};

/// The files of the machine. They tell nothing of what they hold.
#[derive(Drop)]
pub struct HostFiles<R> {
    rt: R,
    faults: u64,
    log: CallLog,
}

impl<R: fs::Files + Drop> HostFiles<R> {
    /// The files of the machine, of which nothing was asked yet.
    pub fn new(rt: R) -> HostFiles<R>
        ensures faults { ⟦<HostFiles<R> as Files>⟧.faults result ≡ 0 }
        ensures asked { ⟦<HostFiles<R> as Files>⟧.asked result ≡ [] }
    {
        HostFiles {
            rt,
            faults: 0,
            log: CallLog::new(),
        }
    }

    /// Counts a call that failed, and keeps each call.
    fn note(&mut self, action: FileAction, name: &str, failed: bool)
        ensures faults { self.new.faults
            ≡ (if failed then one_more self.old.faults else self.old.faults) }
        ensures never_falls { self.old.faults ≤ self.new.faults }
        ensures log { self.new.log.calls ≡ self.old.log.calls
            ++ record { action = action; name = name.now; failed = failed } ∷ [] }
    {
        if failed {
            self.faults = self.faults.saturating_add(1);
        }
        self.log = self.log.and(&CallMade {
            action,
            name,
            failed,
        });
    }
}

impl<R: fs::Files + Drop> Files for HostFiles<R> {
    ghost holds = { λ files. None };

    ghost faults = { λ files. files.faults };

    ghost asked = { λ files. files.log.calls };

    fn load(&mut self, alloc: Global, name: &str) -> Result<Vec<u8>, FileError> {
        let answer = read(&self.rt, alloc, name);
        self.note(FileAction::Load, name, has_failed(&answer));
        answer
    }

    fn store(&mut self, _alloc: Global, name: &str, bytes: &[u8]) -> Result<(), FileError> {
        let answer = write(&self.rt, name, bytes);
        self.note(FileAction::Store, name, has_failed(&answer));
        answer
    }
}

/// What a load of a file answers.
fn read<R: fs::Files>(rt: &R, alloc: Global, name: &str) -> Result<Vec<u8>, FileError>
    ensures { IfOk result (λ bytes. vec_len bytes ≤ most_file_bytes) }
{
    match read_start(rt, alloc, name) {
        Ok(bytes) if bytes.len() > MAX_FILE_LENGTH => Err(FileError::TooLong),
        Ok(bytes) => Ok(bytes),
        Err(error) => Err(match error.kind() {
            ErrorKind::NotFound => FileError::Missing,
            ErrorKind::OutOfMemory => FileError::NoMemory,
            _ => FileError::Failed,
        }),
    }
}

/// What a store of a file answers.
fn write<R: fs::Files>(rt: &R, name: &str, bytes: &[u8]) -> Result<(), FileError>
    ensures length { IsErrOf result FileError.TooLong ↔ most_file_bytes < length bytes.now }
    ensures never_missing { ¬ IsErrOf result FileError.Missing }
{
    if bytes.len() > MAX_FILE_LENGTH {
        return Err(FileError::TooLong);
    }
    let Err(error) = fs::write(rt, name, bytes) else {
        return Ok(());
    };
    match error.kind() {
        ErrorKind::OutOfMemory => Err(FileError::NoMemory),
        _ => Err(FileError::Failed),
    }
}

/// The content of a file, or, where it is too long, its start with one byte too many.
fn read_start<R: fs::Files>(rt: &R, alloc: Global, name: &str) -> io::Result<Vec<u8>> {
    let mut bytes = Vec::new(alloc);
    let mut start = fs::open(rt, name)?.take(MAX_FILE_LENGTH as u64 + 1);
    start.read_to_end(&mut bytes)?;
    Ok(bytes)
}

/// The standard output of the machine. It tells nothing of what was appended.
///
/// Nothing is held back: what `write` took was handed to the system.
#[derive(Drop)]
pub struct HostSink<R> {
    rt: R,
    faults: u64,
}

impl<R: Print + Drop> HostSink<R> {
    /// The standard output of the machine.
    pub fn new(rt: R) -> HostSink<R>
        ensures { ⟦<HostSink<R> as Sink>⟧.faults result ≡ 0 }
    {
        HostSink { rt, faults: 0 }
    }
}

impl<R: Print + Drop> Sink for HostSink<R> {
    ghost appended = { λ sink. None };

    ghost faults = { λ sink. sink.faults };

    fn write(&mut self, from: &[u8]) -> Result<usize, Failed> {
        match self.rt.write_some(from) {
            Ok(n) if n > 0 || from.is_empty() => Ok(n),
            _ => {
                self.faults = self.faults.saturating_add(1);
                Err(Failed)
            }
        }
    }
}
