ghost use Rattle.std.specs.Prelude.{◌≡◌, ◌<◌, ◌≤◌, ◌+◌, ◌++◌, ◌↔◌, length, take, Some, None, IfOk, IfSome, OnOk, OnErr, IsErr, IsTrue, vec_len, vec_capacity};
ghost use Rattle.mot_base.specs.Faults.{Rose};
ghost use Rattle.mot_base.specs.Memory.{SinkInMemory, empty_sink, write_fails, taken, after_taking, after_failing};

use crate::failing::is_listed;
use crate::{Failed, NoMemory, Sink};
use std::alloc::Global;
use std::marker::Model;

/// A sink in memory with a limited room, whose calls fail where they are told to.
#[derive(Drop)]
pub struct MemSink {
    appended: Vec<u8>,
    room: usize,
    most: Option<usize>,
    fails: Vec<u64>,
    calls: u64,
    faults: u64,
}

impl Model for MemSink {
    ghost Value = { SinkInMemory };

    ghost view = { λ sink. record {
      appended = sink.appended.items;
      room = sink.room;
      most = sink.most;
      fails = sink.fails.items;
      calls = sink.calls;
      faults = sink.faults;
    } };

    ghost invariant = { λ sink. (vec_len sink.appended + sink.room ≤ vec_capacity sink.appended)
        × IfSome sink.most (λ most. 0 < most) };
}

impl MemSink {
    /// An empty sink. The memory for `room` bytes is taken here. `fails` lists the numbers, from 1,
    /// of the calls that are to fail.
    pub fn new(alloc: Global, room: usize, fails: Vec<u64>) -> Result<MemSink, NoMemory>
        ensures { IfOk result (λ sink. sink ≡ empty_sink room None fails.items) }
    {
        Ok(MemSink {
            appended: Vec::with_capacity(alloc, room)?,
            room,
            most: None,
            fails,
            calls: 0,
            faults: 0,
        })
    }

    /// The same, but no write takes more than `most` bytes of a piece.
    pub fn in_pieces(
        alloc: Global,
        room: usize,
        most: usize,
        fails: Vec<u64>,
    ) -> Result<MemSink, NoMemory>
        requires { 0 < most }
        ensures { IfOk result (λ sink. sink ≡ empty_sink room (Some most) fails.items) }
    {
        let mut sink = MemSink::new(alloc, room, fails)?;
        sink.most = Some(most);
        Ok(sink)
    }

    /// It tells what was appended.
    pub fn tells_what_was_appended()
        ensures { (sink : SinkInMemory) → ⟦<MemSink as Sink>⟧.appended sink ≡ Some sink.appended }
    {}

    /// Its count of faults is the count of its calls that failed.
    pub fn counts_its_faults()
        ensures { (sink : SinkInMemory) → ⟦<MemSink as Sink>⟧.faults sink ≡ sink.faults }
    {}

    /// What was appended.
    pub fn bytes(&self) -> &[u8]
        ensures { result.now ≡ self.entry.now.appended }
    {
        self.appended.as_slice()
    }
}

impl Sink for MemSink {
    ghost appended = { λ sink. Some sink.appended };

    ghost faults = { λ sink. sink.faults };

    fn write(&mut self, from: &[u8]) -> Result<usize, Failed>
        ensures content { IfOk result (λ n.
            self.new.appended ≡ self.old.appended ++ take n from.now) }
        ensures within { IfOk result (λ n. n ≤ length from.now) }
        ensures some { IfOk result (λ n. 0 < length from.now → 0 < n) }
        ensures nothing { OnErr result (self.new.appended ≡ self.old.appended) }
        ensures cause { OnErr result (Rose self.old.faults self.new.faults) }
        ensures never_falls { self.old.faults ≤ self.new.faults }
        ensures fails { IsErr result ↔ IsTrue (write_fails self.old from.now) }
        ensures takes { IfOk result (λ n. n ≡ taken self.old from.now) }
        ensures after_ok { OnOk result (self.new ≡ after_taking self.old from.now) }
        ensures after_err { OnErr result (self.new ≡ after_failing self.old) }
    {
        let fails = is_listed(&self.fails, self.calls);
        self.calls = self.calls.saturating_add(1);
        let room = from.len().min(self.room);
        let taken = self.most.map_or(room, |most| room.min(most));
        if fails || (self.room == 0 && !from.is_empty()) {
            self.faults = self.faults.saturating_add(1);
            return Err(Failed);
        }
        let Ok(()) = self.appended.extend_from_slice(&from[..taken]) else {
            unreachable!()
        };
        self.room -= taken;
        Ok(taken)
    }
}
