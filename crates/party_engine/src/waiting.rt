//! Which gates are looked at next.

use gate_tasks::Need;
use mot_base::NoMemory;
use std::alloc::Global;

/// Stands in place of a gate: the end of a list.
const END: u32 = u32::MAX;

/// Stands in place of a gate: it is in no list.
const NOWHERE: u32 = u32::MAX - 1;

/// The gates that are to be looked at, and for each gate those that wait for its value. What is right does not rest on it:
/// before a stage runs it is asked what it lacks, and the last pass runs what was never looked at.
#[derive(Debug, Drop)]
pub(crate) struct Waiting {
    next: Vec<u32>,
    is_next: Vec<bool>,
    // the first gate that waits for a gate's value, and behind each that waits the next one
    first: Vec<u32>,
    behind: Vec<u32>,
    open: u32,
}

impl Waiting {
    /// All of so many gates are to be looked at, the first one first.
    pub(crate) fn new(alloc: Global, gates: u32) -> Result<Waiting, NoMemory> {
        let mut next = Vec::with_capacity(alloc, gates as usize)?;
        for gate in (0..gates).rev() {
            next.push(gate)?;
        }
        Ok(Waiting {
            next,
            is_next: vec![in alloc; true; gates as usize]?,
            first: vec![in alloc; END; gates as usize]?,
            behind: vec![in alloc; NOWHERE; gates as usize]?,
            open: gates,
        })
    }

    /// Whether each gate was told to have its value.
    pub(crate) fn is_over(&self) -> bool {
        self.open == 0
    }

    /// A gate that is to be looked at.
    pub(crate) fn pop(&mut self) -> Option<u32> {
        let gate = self.next.pop()?;
        if let Some(is_next) = self.is_next.get_mut(gate as usize) {
            *is_next = false;
        }
        Some(gate)
    }

    /// A gate is to be looked at.
    pub(crate) fn push(&mut self, gate: u32) -> Result<(), NoMemory> {
        let Some(is_next) = self.is_next.get_mut(gate as usize) else {
            return Ok(());
        };
        if *is_next {
            return Ok(());
        }
        *is_next = true;
        self.next.push(gate)?;
        Ok(())
    }

    /// Gates are to be looked at.
    pub(crate) fn push_all(&mut self, gates: &[u32]) -> Result<(), NoMemory> {
        for gate in gates {
            self.push(*gate)?;
        }
        Ok(())
    }

    /// A gate lacks something. Where it is the value of another one it waits there, and else for its messages.
    pub(crate) fn wait(&mut self, gate: u32, need: Need) {
        let Need::Wire(other) = need else {
            return;
        };
        let Some(behind) = self.behind.get_mut(gate as usize) else {
            return;
        };
        let Some(first) = self.first.get_mut(other as usize) else {
            return;
        };
        if *behind == NOWHERE {
            *behind = *first;
            *first = gate;
        }
    }

    /// A stage of a gate was run, which was the last one or not. Those that waited for its value are to be looked at, or the
    /// gate itself.
    pub(crate) fn ran(&mut self, gate: u32, is_last: bool) -> Result<(), NoMemory> {
        if !is_last {
            return self.push(gate);
        }
        self.open = self.open.saturating_sub(1);
        let Some(first) = self.first.get_mut(gate as usize) else {
            return Ok(());
        };
        let mut waits = *first;
        *first = END;
        for _gate in 0..self.behind.len() {
            let Some(behind) = self.behind.get_mut(waits as usize) else {
                break;
            };
            let gate = waits;
            waits = *behind;
            *behind = NOWHERE;
            self.push(gate)?;
        }
        Ok(())
    }
}
