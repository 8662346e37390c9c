//! The handle that a caller in C has: memory of zeros is a handle without a log.
ghost use Rattle.std.specs.Prelude.{◌≡◌, ◌≢◌, ◌↔◌, ◌⊎◌, Option, IsSome, Some, None, option_map};
ghost use Rattle.nl_c.specs.{Kept.{made as made_mark, owned_if}, Held.{table_of}, declared.handle.Held.{Held}, Statuses.{ok, out_of_memory}};

use crate::carried_log::CarriedLog;
use crate::loaded_log::LoadedLog;
use crate::status;
use nl_table::Table;
use std::alloc::Global;
use std::marker::Model;
use std::mem::replace;
use std::ptr::null_mut;

// Memory that was never a handle doesn't hold this number by chance.
const MADE: u64 = 0x6e6c_6f67_6861_6e64;

#[repr(C)]
#[derive(Drop)]
pub struct Handle {
    pub(crate) made: u64,
    pub(crate) kept: Kept,
    ghost is_made: { (made ≡ made_mark) ↔ IsSome kept.log },
}

impl Handle {
    pub(crate) fn of(log: Box<Held>) -> Handle
        ensures { result.kept.log ≡ Some log.value }
    {
        Handle {
            made: MADE,
            kept: Kept::of(log),
        }
    }

    /// The caller owns the log then.
    pub(crate) fn take(&mut self, alloc: Global) -> Option<Box<Held>>
        ensures held { self.old.kept.log ≡ option_map (λ log. log.value) result }
        ensures empty { self.new.kept.log ≡ None }
    {
        let made = replace(&mut self.made, 0);
        let kept = replace(&mut self.kept, Kept::empty());
        if made == MADE {
            Some(kept.into_box(alloc))
        } else {
            None
        }
    }

    /// Frees the log that it had before. Without memory that log stays.
    pub(crate) fn put(&mut self, alloc: Global, held: Held) -> u32
        ensures ok { result ≡ ok → self.new.kept.log ≡ Some held }
        ensures refusals { (result ≡ ok) ⊎ (result ≡ out_of_memory) }
        ensures unchanged { result ≢ ok → self.new.kept.log ≡ self.old.kept.log }
    {
        let Ok(log) = Box::new(alloc, held) else {
            return status::OUT_OF_MEMORY;
        };
        drop(self.take(alloc));
        *self = Handle::of(log);
        status::OK
    }
}

/// One pointer: to what it holds on the heap, which it owns, or to none.
#[repr(C)]
#[derive(Drop)]
pub struct Kept {
    at: *mut u8,
    ghost log: { Option Held },
}

impl Model for Kept {
    ghost also_owns = { λ k. owned_if k.at k.log };
}

impl Kept {
    pub(crate) fn empty() -> Kept
        ensures { result.log ≡ None }
    {
        Kept { at: null_mut() }
    }

    pub(crate) fn of(log: Box<Held>) -> Kept
        ensures { result.log ≡ Some log.value }
    {
        let (at, _) = Box::into_raw_with_allocator(log);
        Kept { at: at as *mut u8 }
    }

    pub(crate) fn into_box(self, alloc: Global) -> Box<Held>
        requires { IsSome self.log }
        ensures { self.log ≡ Some result.value }
    {
        unsafe { Box::from_raw(alloc, self.at as *mut Held) }
    }
}

/// What a handle holds: a log that was loaded, or one that is carried.
#[derive(Drop)]
pub enum Held {
    Loaded(LoadedLog),
    Carried(CarriedLog),
}

impl Held {
    pub(crate) fn table(&self) -> Option<&Table>
        ensures { option_map (λ t. t.now) result ≡ table_of self.now }
    {
        match self {
            Held::Loaded(log) => Some(&log.loaded.table),
            Held::Carried(log) => log.written.log.table(),
        }
    }
}
