ghost use Rattle.std.specs.Prelude.{◌≡◌, ◌<◌, ◌^◌, Some, None, set, length, get_or, replicate, IfOk, OnOk};

use mot_base::NoMemory;
use slab::Slab;
use std::alloc::Global;
use std::marker::Model;

/// Stands in place of the key of a value that is not there.
const NOWHERE: u32 = u32::MAX;

/// A value, or none, under each number below a bound. It takes four bytes for each number, and beside them room for as
/// many values as there are at a time: one that is put lies where another one was taken.
#[derive(Drop)]
pub(crate) struct Shelf<E> {
    values: Slab<E>,
    keys: Vec<u32>,
}

impl<E> Model for Shelf<E> {
    ghost use Rattle.std.specs.Prelude.{List, Option};
    ghost use Rattle.task_pool.specs.Shelves.{on_shelf, AreKeys};

    ghost Value = { List (Option E) };

    ghost view = { λ s. on_shelf s.values s.keys.items };

    ghost invariant = { λ s. AreKeys s.values s.keys.items };
}

impl<E: Drop> Shelf<E> {
    /// No value under each of so many numbers.
    pub(crate) fn new(alloc: Global, count: usize) -> Result<Shelf<E>, NoMemory>
        ensures { IfOk result (λ shelf. shelf ≡ replicate count None) }
    {
        let keys = Vec::from_elem(alloc, NOWHERE, count)?;
        Ok(Shelf {
            values: Slab::new(alloc),
            keys,
        })
    }

    /// Takes the value under a number.
    pub(crate) fn take(&mut self, number: u32) -> Option<E>
        requires { number < length self.old }
        ensures value { result ≡ get_or self.old number None }
        ensures after { self.new ≡ set self.old number None }
    {
        let key = self.keys[number as usize];
        self.keys[number as usize] = NOWHERE;
        self.values.try_remove(key as usize)
    }

    /// Puts a value under a number, and lets go the one that was there.
    pub(crate) fn put(&mut self, number: u32, value: E) -> Result<(), NoMemory>
        requires { number < length self.old }
        ensures put { OnOk result (self.new ≡ set self.old number (Some value)) }
        ensures as_many { length self.new ≡ length self.old }
    {
        self.take(number);
        if self.values.vacant_key() >= NOWHERE as usize {
            return Err(NoMemory);
        }
        let key = self.values.insert(value)?;
        self.keys[number as usize] = key as u32;
        Ok(())
    }
}
