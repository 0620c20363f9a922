//! The program on a machine in memory.
ghost use Rattle.std.specs.Prelude.{◌≡◌, IfOk, length, vec_len};

use mot_base::{MemFiles, MemSink, NoMemory, OpenGate};
use motion_cli::{deal_command, local_command, motion, needs_command, plain_command};
use std::alloc::{AllocError, Global};
use std::thread::Threads;

/// The word of a seed.
pub(crate) const SEED: &str = "0000000000000000000000000000000000000000000000000000000000000000";

/// What runs: the program on the words after its name, or a command on the words after that of the command.
#[derive(Clone, Copy)]
pub(crate) enum Runs {
    Program,
    Plain,
    Needs,
    Deal,
    Local,
}

impl Runs {
    /// Runs it, and gives its status.
    fn run<R: Threads + Sync>(
        self,
        rt: &R,
        alloc: Global,
        words: &[String],
        files: &mut MemFiles,
        out: &mut MemSink,
    ) -> u8 {
        match self {
            Runs::Program => motion(rt, alloc, words, files, out, &OpenGate),
            Runs::Plain => plain_command(alloc, words, files, out),
            Runs::Needs => needs_command(alloc, words, files, out),
            Runs::Deal => deal_command(alloc, words, files, out),
            Runs::Local => local_command(rt, alloc, words, files, out, &OpenGate),
        }
    }
}

/// Files and an output in memory.
#[derive(Drop)]
pub(crate) struct Machine<'a> {
    /// The name of each file and its content.
    pub(crate) files: &'a [(&'a str, &'a str)],
    /// The numbers, from 1, of the calls on files that fail.
    pub(crate) failing_calls: &'a [u64],
    /// How many bytes the output takes.
    pub(crate) room: usize,
    /// The numbers, from 1, of the writes that fail.
    pub(crate) failing_writes: &'a [u64],
}

/// How a run ended.
#[derive(Drop)]
pub(crate) struct End {
    status: u8,
    files: MemFiles,
    out: MemSink,
}

impl End {
    /// Whether this was written, and the run ended with that status.
    pub(crate) fn is(&self, written: &str, status: u8) -> bool {
        self.status == status && self.out.bytes() == written.as_bytes()
    }

    /// The files as they are then.
    pub(crate) fn into_files(self) -> MemFiles {
        self.files
    }

    /// Whether a name holds this, in hexadecimal digits, or nothing.
    pub(crate) fn holds(&self, alloc: Global, name: &str, content: Option<&str>) -> bool {
        match (self.files.get(name), content) {
            (Some(bytes), Some(text)) => is_hex(alloc, bytes, text),
            (None, None) => true,
            _ => false,
        }
    }
}

fn is_hex(alloc: Global, bytes: &[u8], text: &str) -> bool {
    match hex::encode(alloc, bytes) {
        Ok(seen) => seen.as_str() == text,
        Err(_) => false,
    }
}

impl<'a> Machine<'a> {
    /// A machine with these files, no faults, and room enough.
    pub(crate) fn new(files: &'a [(&'a str, &'a str)]) -> Machine<'a> {
        Machine {
            files,
            failing_calls: &[],
            room: 1000,
            failing_writes: &[],
        }
    }

    /// How a run on some words ends.
    pub(crate) fn end<R: Threads + Sync>(
        &self,
        rt: &R,
        alloc: Global,
        runs: Runs,
        words: &[&str],
    ) -> Option<End> {
        match self.files(alloc) {
            Ok(files) => self.end_over(rt, alloc, runs, words, files),
            Err(_) => None,
        }
    }

    /// The same over other files.
    pub(crate) fn end_over<R: Threads + Sync>(
        &self,
        rt: &R,
        alloc: Global,
        runs: Runs,
        words: &[&str],
        files: MemFiles,
    ) -> Option<End> {
        match self.out(alloc) {
            Ok(out) => end_of(rt, alloc, runs, words, files, out),
            Err(_) => None,
        }
    }

    /// Whether a run on some words writes this and ends with that status.
    pub(crate) fn prints<R: Threads + Sync>(
        &self,
        rt: &R,
        alloc: Global,
        runs: Runs,
        words: &[&str],
        written: &str,
        status: u8,
    ) -> bool {
        match self.end(rt, alloc, runs, words) {
            Some(end) => end.is(written, status),
            None => false,
        }
    }

    /// Its files, of which no call is made yet.
    pub(crate) fn files(&self, alloc: Global) -> Result<MemFiles, AllocError> {
        let failing = Vec::from_slice(alloc, self.failing_calls)?;
        let names = names_of(alloc, self.files)?;
        Ok(MemFiles::new(names, contents_of(alloc, self.files)?, failing))
    }

    /// Its output, which is empty.
    fn out(&self, alloc: Global) -> Result<MemSink, NoMemory> {
        let failing = Vec::from_slice(alloc, self.failing_writes)?;
        MemSink::new(alloc, self.room, failing)
    }
}

fn names_of(alloc: Global, files: &[(&str, &str)]) -> Result<Vec<String>, AllocError>
    ensures { IfOk result (λ names. vec_len names ≡ length files.now) }
{
    files
        .iter()
        .map(|(name, _)| String::from_str(alloc, name))
        .try_collect(alloc)
}

fn contents_of(alloc: Global, files: &[(&str, &str)]) -> Result<Vec<Vec<u8>>, AllocError>
    ensures { IfOk result (λ contents. vec_len contents ≡ length files.now) }
{
    files
        .iter()
        .map(|(_, content)| Vec::from_slice(alloc, content.as_bytes()))
        .try_collect(alloc)
}

/// How a run on some words ends, over these files and this output.
fn end_of<R: Threads + Sync>(
    rt: &R,
    alloc: Global,
    runs: Runs,
    words: &[&str],
    mut files: MemFiles,
    mut out: MemSink,
) -> Option<End> {
    match strings(alloc, words) {
        Ok(words) => {
            let status = runs.run(rt, alloc, words.as_slice(), &mut files, &mut out);
            Some(End { status, files, out })
        }
        Err(_) => None,
    }
}

fn strings(alloc: Global, words: &[&str]) -> Result<Vec<String>, AllocError> {
    words
        .iter()
        .map(|word| String::from_str(alloc, word))
        .try_collect(alloc)
}
