ghost use Rattle.std.specs.Prelude.{◌≡◌, ◌<◌, ◌≤◌, ◌+◌, ◌-◌, max, List, ℕ, [], ◌++◌, length, take, IfOk, OnOk, OnErr};
ghost use Rattle.frames.specs.declared.frame.Frame.{Frame};
ghost use Rattle.frames.specs.Reading.{frame_length, IsPartial, Reads, Waiting, fault_of, has_ended, waiting, IsStopped};
ghost use Rattle.frames.specs.Steps.{GoesOn, left_progress, progress, IsHeld};

use crate::cut::{Front, Left, cut, fault_at, frame_length, look};
use crate::frame::{Frame, FrameFault, MAX_LENGTH};
use mot_base::NoMemory;
use std::alloc::{AllocError, Global};
use std::marker::Model;

/// Whether a reader reads on.
#[derive(Clone, Copy, Debug, PartialEq, Eq)]
pub enum Phase {
    Reading,
    Faulty(FrameFault),
    Ended,
}

/// What a piece of bytes gave.
#[derive(Debug, Drop)]
pub struct Fed {
    /// The frames that are whole now and were not before, in their order.
    pub frames: Vec<Frame>,
    /// Why no more frames come, if a frame was bad.
    pub fault: Option<FrameFault>,
}

/// Takes the frames from the bytes of one link, which come in pieces of any cutting.
///
/// Between two pieces it holds the bytes of a frame that is not whole yet, and no others.
#[derive(Debug, Drop)]
pub struct Reader {
    held: Vec<u8>,
    phase: Phase,
}

impl Model for Reader {
    ghost use Rattle.frames.specs.Reading.{Progress};
    ghost use Rattle.frames.specs.Steps.{progress, IsHeld};

    ghost Value = { Progress };

    ghost view = { λ reader. progress reader.phase reader.held.items };

    ghost invariant = { λ reader. IsHeld reader.phase reader.held.items };
}

impl Reader {
    /// A reader that was fed nothing.
    pub fn new(alloc: Global) -> Reader
        ensures waits { result ≡ Waiting [] }
        ensures reads { Reads [] [] result }
    {
        Reader {
            held: Vec::new(alloc),
            phase: Phase::Reading,
        }
    }

    /// Takes the next bytes. The frames of all pieces so far are the whole frames at the front of all
    /// bytes so far, up to the first fault or End, however they were cut. A Hello is given as it stands,
    /// whatever its fields say.
    pub fn feed(&mut self, alloc: Global, piece: &[u8]) -> Result<Fed, NoMemory>
        // the frames of all pieces so far are those of all bytes so far
        ensures reads { IfOk result (λ fed. (bytes : List ℕ) (frames : List Frame)
            → Reads bytes frames self.old
            → Reads (bytes ++ piece.now) (frames ++ fed.frames.items) self.new) }
        ensures fault { IfOk result (λ fed. fed.fault ≡ fault_of self.new) }
        // after a fault or End no frame comes, and the answer stays
        ensures stopped { IfOk result (λ fed. IsStopped self.old → fed.frames.items ≡ []) }
        ensures stays { IsStopped self.old → self.new ≡ self.old }
        ensures no_memory { OnErr result (self.new ≡ self.old) }
    {
        match self.phase {
            Phase::Reading => {}
            Phase::Faulty(fault) => return Ok(nothing(alloc, Some(fault))),
            Phase::Ended => return Ok(nothing(alloc, None)),
        }
        let before = self.held.len();
        match take_in(alloc, &mut self.held, piece) {
            Ok((frames, phase)) => {
                self.phase = phase;
                Ok(Fed {
                    frames,
                    fault: fault_of(phase),
                })
            }
            Err(NoMemory) => {
                self.held.truncate(before);
                Err(NoMemory)
            }
        }
    }

    /// Whether End was read.
    pub fn has_ended(&self) -> bool
        ensures { result ≡ has_ended self.now }
    {
        match self.phase {
            Phase::Reading | Phase::Faulty(_) => false,
            Phase::Ended => true,
        }
    }

    /// How many bytes stand behind the last whole frame. It is 0 after a fault or End.
    pub fn pending(&self) -> usize
        ensures is { result ≡ waiting self.now }
        ensures small { result < MAX_LENGTH + 4 }
    {
        self.held.len()
    }
}

fn nothing(alloc: Global, fault: Option<FrameFault>) -> Fed
    ensures frames { result.frames.items ≡ [] }
    ensures fault { result.fault ≡ fault }
{
    Fed {
        frames: Vec::new(alloc),
        fault,
    }
}

fn fault_of(phase: Phase) -> Option<FrameFault>
    ensures { (held : List ℕ) → result ≡ fault_of (progress phase held) }
{
    match phase {
        Phase::Reading => None,
        Phase::Faulty(fault) => Some(fault),
        Phase::Ended => None,
    }
}

/// Takes the frames of a piece, behind the bytes that are held.
fn take_in(alloc: Global, held: &mut Vec<u8>, piece: &[u8]) -> Result<(Vec<Frame>, Phase), NoMemory>
    requires { IsPartial held.old.items }
    ensures reads { IfOk result (λ found.
        Reads (held.old.items ++ piece.now) found.0.items (progress found.1 held.new.items)) }
    ensures held { IfOk result (λ found. IsHeld found.1 held.new.items) }
    ensures err { OnErr result (take (length held.old.items) held.new.items ≡ held.old.items) }
{
    let mut frames = Vec::new(alloc);
    if held.is_empty() {
        let phase = take_rest(alloc, held, piece, &mut frames)?;
        return Ok((frames, phase));
    }
    let rest = complete(held, piece)?;
    match look(alloc, held)? {
        Front::Partial => Ok((frames, Phase::Reading)),
        Front::Bad(fault) => {
            held.clear();
            Ok((frames, Phase::Faulty(fault)))
        }
        Front::End => {
            frames.push(Frame::End)?;
            held.clear();
            Ok((frames, Phase::Ended))
        }
        Front::Whole(frame) => {
            frames.push(frame)?;
            let phase = take_rest(alloc, held, rest, &mut frames)?;
            Ok((frames, phase))
        }
    }
}

/// Takes the frames of the bytes behind the frames so far, and holds what is left in place of what
/// was held.
fn take_rest(
    alloc: Global,
    held: &mut Vec<u8>,
    bytes: &[u8],
    frames: &mut Vec<Frame>,
) -> Result<Phase, NoMemory>
    ensures reads { IfOk result (λ phase.
        GoesOn frames.old.items bytes.now frames.new.items (progress phase held.new.items)) }
    ensures held { IfOk result (λ phase. IsHeld phase held.new.items) }
    ensures err { OnErr result (held.new.items ≡ held.old.items) }
{
    match cut(alloc, bytes, frames)? {
        Left::Partial(rest) => {
            hold(held, rest)?;
            Ok(Phase::Reading)
        }
        Left::Bad(fault) => {
            held.clear();
            Ok(Phase::Faulty(fault))
        }
        Left::Ended => {
            held.clear();
            Ok(Phase::Ended)
        }
    }
}

/// Holds these bytes in place of the others.
fn hold(held: &mut Vec<u8>, bytes: &[u8]) -> Result<(), AllocError>
    ensures ok { OnOk result (held.new.items ≡ bytes.now) }
    ensures err { OnErr result (held.new.items ≡ held.old.items) }
{
    held.try_reserve(bytes.len())?;
    held.clear();
    let Ok(()) = held.extend_from_slice(bytes) else {
        unreachable!()
    };
    Ok(())
}

/// Appends to the bytes that are held what their frame still lacks of the piece, and gives the others.
fn complete<'a>(held: &mut Vec<u8>, piece: &'a [u8]) -> Result<&'a [u8], AllocError>
    requires { IsPartial held.old.items }
    ensures joined { IfOk result (λ rest. held.new.items ++ rest.now ≡ held.old.items ++ piece.entry.now) }
    ensures one { OnOk result (length held.new.items ≤ frame_length held.new.items) }
    ensures all { IfOk result (λ rest. IsPartial held.new.items → rest.now ≡ []) }
    ensures kept { take (length held.old.items) held.new.items ≡ held.old.items }
{
    let rest = extend_to(held, 4, piece)?;
    if held.len() < 4 || fault_at(held).is_some() {
        return Ok(rest);
    }
    let length = frame_length(held);
    held.try_reserve(length.saturating_sub(held.len()))?;
    let rest = extend_to(held, length, rest)?;
    Ok(rest)
}

/// Appends bytes of the piece, up to a length, and gives the others.
fn extend_to<'a>(held: &mut Vec<u8>, target: usize, piece: &'a [u8]) -> Result<&'a [u8], AllocError>
    ensures joined { IfOk result (λ rest. held.new.items ++ rest.now ≡ held.old.items ++ piece.entry.now) }
    ensures more { IfOk result (λ rest.
        let more = length held.new.items - length held.old.items in
        held.new.items ≡ held.old.items ++ take more piece.entry.now) }
    ensures most { OnOk result (length held.new.items ≤ max target (length held.old.items)) }
    ensures all { IfOk result (λ rest. length held.new.items < target → rest.now ≡ []) }
    ensures err { OnErr result (held.new.items ≡ held.old.items) }
{
    let lacking = target.saturating_sub(held.len()).min(piece.len());
    let (front, rest) = piece.split_at(lacking);
    held.extend_from_slice(front)?;
    Ok(rest)
}
