//! The program: the words after its name, the machine's files and standard output.
#![tactic(auto)]

ghost use Rattle.std.specs.Prelude.{◌≡◌, ◌≢◌};

use mot_base::{HostFiles, HostSink, OpenGate};
use motion_cli::motion;
use std::alloc::{Alloc, Global};
use std::env::{self, Env, FillError};
use std::io::{self, ErrorKind};
use std::process::ExitCode;

fn main(rt: HostRuntime) -> ExitCode {
    let words = match words_after_name(&rt) {
        Ok(words) => words,
        Err(error) => return ExitCode::from(status_without_words(error.kind())),
    };
    let mut files = HostFiles::new(&rt);
    let mut out = HostSink::new(&rt);
    let status = motion(
        &rt,
        rt.alloc(),
        words.as_slice(),
        &mut files,
        &mut out,
        &OpenGate,
    );
    ExitCode::from(status)
}

/// The words after the program's name.
fn words_after_name(rt: &HostRuntime) -> io::Result<Vec<String>> {
    Ok(env::args(&AfterName(rt))?.collect(rt.alloc())?)
}

/// The machine's arguments from the first behind the program's name on. The name is not read, since nothing hangs on it: it
/// need not be UTF-8.
#[derive(Clone, Copy)]
struct AfterName<'a>(&'a HostRuntime);

impl Env for AfterName<'_> {
    fn arg(&self, i: usize, buf: &mut [u8]) -> Result<usize, FillError> {
        self.0.arg(i.saturating_add(1), buf)
    }

    fn var(&self, name: &str, buf: &mut [u8]) -> Result<usize, FillError> {
        self.0.var(name, buf)
    }

    fn var_at(&self, i: usize, buf: &mut [u8]) -> Result<usize, FillError> {
        self.0.var_at(i, buf)
    }
}

impl Alloc for AfterName<'_> {
    type A = Global;

    fn alloc(&self) -> Global {
        self.0.alloc()
    }
}

/// The status where there are no words: memory ran out, or one of them is not UTF-8. Nothing is written.
fn status_without_words(cause: ErrorKind) -> u8
    ensures memory { cause ≡ ErrorKind.OutOfMemory → result ≡ 11 }
    ensures others { cause ≢ ErrorKind.OutOfMemory → result ≡ 1 }
{
    match cause {
        ErrorKind::OutOfMemory => 11,
        _ => 1,
    }
}
