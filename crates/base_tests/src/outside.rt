//! Files and a sink in memory, with faults.
ghost use Rattle.std.specs.Prelude.{◌≡◌, IfOk, vec_len};

use mot_base::{
    FileError, Files, HostFiles, MAX_FILE_LENGTH, MemFiles, MemSink, NoMemory, Payload,
    WriteFailed, write_all,
};
use std::alloc::{AllocError, Global};

fn names(alloc: Global) -> Result<Vec<String>, AllocError>
    ensures { IfOk result (λ names. vec_len names ≡ 2) }
{
    let circuit = String::from_str(alloc, "circuit")?;
    let empty = String::from_str(alloc, "empty")?;
    Ok(vec![in alloc; circuit, empty]?)
}

fn contents(alloc: Global) -> Result<Vec<Vec<u8>>, AllocError>
    ensures { IfOk result (λ contents. vec_len contents ≡ 2) }
{
    let content = Vec::from_slice(alloc, b"mixed 1")?;
    Ok(vec![in alloc; content, Vec::new(alloc)]?)
}

// a file of some content and an empty one, with the calls that fail
fn shelf(alloc: Global, fails: &[u64]) -> Result<MemFiles, AllocError> {
    let fails = Vec::from_slice(alloc, fails)?;
    let names = names(alloc)?;
    Ok(MemFiles::new(names, contents(alloc)?, fails))
}

// the name of each load in turn, and its answer, where the third load fails
static LOADS: [(&str, Result<&[u8], FileError>); 6] = [
    ("circuit", Ok(b"mixed 1")),
    ("empty", Ok(b"")),
    ("circuit", Err(FileError::Failed)),
    ("circuit", Ok(b"mixed 1")),
    ("circui", Err(FileError::Missing)),
    ("circuit ", Err(FileError::Missing)),
];

fn is_answer(loaded: &Result<Vec<u8>, FileError>, answer: &Result<&[u8], FileError>) -> bool {
    match (loaded, answer) {
        (Ok(bytes), Ok(content)) => bytes.as_slice() == *content,
        (Err(error), Err(cause)) => *error == *cause,
        _ => false,
    }
}

// the number of the first load with another answer
fn wrong_load(
    alloc: Global,
    files: &mut MemFiles,
    rows: &[(&str, Result<&[u8], FileError>)],
) -> Option<usize> {
    for (at, (name, answer)) in rows.iter().enumerate() {
        if !is_answer(&files.load(alloc, name), answer) {
            return Some(at);
        }
    }
    None
}

#[test]
fn a_load_gives_what_the_name_holds(rt: HostRuntime) {
    let wrong = match shelf(rt.alloc(), &[3]) {
        Ok(mut files) => wrong_load(rt.alloc(), &mut files, &LOADS),
        Err(_) => Some(0),
    };
    assert!(rt; wrong.is_none(), "load {wrong:?}");
}

static HELD: [(&str, Option<&[u8]>); 3] = [
    ("circuit", Some(b"mixed 1")),
    ("empty", Some(b"")),
    ("missing", None),
];

// the number of the first name that holds something else
fn wrong_content(files: &MemFiles, rows: &[(&str, Option<&[u8]>)]) -> Option<usize> {
    for (at, (name, content)) in rows.iter().enumerate() {
        if files.get(name) != *content {
            return Some(at);
        }
    }
    None
}

#[test]
fn get_sees_what_files_hold(rt: HostRuntime) {
    let wrong = match shelf(rt.alloc(), &[]) {
        Ok(files) => wrong_content(&files, &HELD),
        Err(_) => Some(0),
    };
    assert!(rt; wrong.is_none(), "name {wrong:?}");
}

// a file of one byte more than a file may have, whose first load is to fail
fn too_long(alloc: Global) -> Result<MemFiles, AllocError> {
    let fails = Vec::from_slice(alloc, &[1])?;
    let names = vec![in alloc; String::from_str(alloc, "long")?]?;
    Ok(MemFiles::new(names, too_long_content(alloc)?, fails))
}

fn too_long_content(alloc: Global) -> Result<Vec<Vec<u8>>, AllocError>
    ensures { IfOk result (λ contents. vec_len contents ≡ 1) }
{
    let content = vec![in alloc; 0u8; MAX_FILE_LENGTH + 1]?;
    Ok(vec![in alloc; content]?)
}

fn is_too_long(loaded: &Result<Vec<u8>, FileError>) -> bool {
    matches!(loaded, Err(FileError::TooLong))
}

#[test]
fn too_long_comes_before_a_fault(rt: HostRuntime) {
    let is_refused = match too_long(rt.alloc()) {
        Ok(mut files) => is_too_long(&files.load(rt.alloc(), "long")),
        Err(_) => false,
    };
    assert!(rt; is_refused);
}

// the name and the content of each store in turn, and its answer, where the second call fails
static STORES: [(&str, &[u8], Result<(), FileError>); 4] = [
    ("circuit", b"mixed 2", Ok(())),
    ("empty", b"full", Err(FileError::Failed)),
    ("new", b"", Ok(())),
    ("new", b"newer", Ok(())),
];

static STORED: [(&str, Option<&[u8]>); 4] = [
    ("circuit", Some(b"mixed 2")),
    ("empty", Some(b"")),
    ("new", Some(b"newer")),
    ("missing", None),
];

// the number of the first store with another answer
fn wrong_store(
    alloc: Global,
    files: &mut MemFiles,
    rows: &[(&str, &[u8], Result<(), FileError>)],
) -> Option<usize> {
    for (at, (name, content, answer)) in rows.iter().enumerate() {
        if files.store(alloc, name, content) != *answer {
            return Some(at);
        }
    }
    None
}

fn are_stored(alloc: Global, files: &mut MemFiles) -> bool {
    wrong_store(alloc, files, &STORES).is_none() && wrong_content(files, &STORED).is_none()
}

#[test]
fn a_store_puts_what_the_name_holds(rt: HostRuntime) {
    let is_stored = match shelf(rt.alloc(), &[2]) {
        Ok(mut files) => are_stored(rt.alloc(), &mut files),
        Err(_) => false,
    };
    assert!(rt; is_stored);
}

fn is_given_back(alloc: Global, files: &mut impl Files) -> bool {
    is_answer(&files.load(alloc, "stored"), &Err(FileError::Missing))
        && files.store(alloc, "stored", b"shares").is_ok()
        && is_answer(&files.load(alloc, "stored"), &Ok(b"shares"))
        && files.store(alloc, "no folder/stored", b"shares") == Err(FileError::Failed)
}

#[test]
fn the_machine_gives_back_what_was_stored(rt: HostRuntime) {
    let is_given_back = is_given_back(rt.alloc(), &mut HostFiles::new(&rt));
    let is_removed = std::fs::remove_file(&rt, "stored").is_ok();
    assert!(rt; is_given_back && is_removed);
}

fn is_share(payload: &Payload) -> bool {
    payload.bytes() == b"share".as_slice()
}

fn is_copied(alloc: Global, payload: &Payload) -> bool {
    match payload.copy(alloc) {
        Ok(copy) => is_share(&copy) && is_share(payload),
        Err(_) => false,
    }
}

#[test]
fn a_payload_is_copied(rt: HostRuntime) {
    let is_copied = match Vec::from_slice(rt.alloc(), b"share") {
        Ok(bytes) => is_copied(rt.alloc(), &Payload::new(bytes)),
        Err(_) => false,
    };
    assert!(rt; is_copied);
}

struct Writing {
    room: usize,
    fails: &'static [u64],
    first: Result<(), WriteFailed>,
    second: Result<(), WriteFailed>,
    appended: &'static [u8],
}

static WRITINGS: [Writing; 5] = [
    Writing {
        room: 12,
        fails: &[],
        first: Ok(()),
        second: Ok(()),
        appended: b"sharetriple",
    },
    Writing {
        room: 7,
        fails: &[],
        first: Ok(()),
        second: Err(WriteFailed { written: 2 }),
        appended: b"sharetr",
    },
    Writing {
        room: 5,
        fails: &[],
        first: Ok(()),
        second: Err(WriteFailed { written: 0 }),
        appended: b"share",
    },
    Writing {
        room: 12,
        fails: &[2],
        first: Ok(()),
        second: Err(WriteFailed { written: 0 }),
        appended: b"share",
    },
    Writing {
        room: 12,
        fails: &[1],
        first: Err(WriteFailed { written: 0 }),
        second: Ok(()),
        appended: b"triple",
    },
];

fn holds(sink: &MemSink, bytes: &[u8]) -> bool {
    sink.bytes() == bytes
}

fn is_written(sink: &mut MemSink, case: &Writing) -> bool {
    write_all(sink, b"").is_ok()
        && write_all(sink, b"share") == case.first
        && write_all(sink, b"triple") == case.second
        && holds(sink, case.appended)
}

fn sink(alloc: Global, case: &Writing) -> Result<MemSink, NoMemory> {
    let fails = Vec::from_slice(alloc, case.fails)?;
    MemSink::new(alloc, case.room, fails)
}

fn goes(alloc: Global, case: &Writing) -> bool {
    match sink(alloc, case) {
        Ok(mut sink) => is_written(&mut sink, case),
        Err(_) => false,
    }
}

// the number of the first writing that goes another way
fn wrong_writing(alloc: Global, rows: &[Writing]) -> Option<usize> {
    for (at, case) in rows.iter().enumerate() {
        if !goes(alloc, case) {
            return Some(at);
        }
    }
    None
}

#[test]
fn a_writing_stops_at_its_fault(rt: HostRuntime) {
    let wrong = wrong_writing(rt.alloc(), &WRITINGS);
    assert!(rt; wrong.is_none(), "writing {wrong:?}");
}
