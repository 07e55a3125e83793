//! Lists with room for more.

ghost use Rattle.std.specs.Prelude.{◌≡◌, [], ◌∷◌, ◌++◌, ◌+◌, ◌<◌, ◌≤◌, length, slice_get, slice_set, OnOk, Some};
ghost use Rattle.std.specs.List.{insert, remove};

use std::alloc::{AllocError, Global};
use std::marker::Model;
use std::mem;

/// A list, seen with the room that it has for more items. Where there is room, adding takes no memory.
#[derive(Drop)]
pub struct Roomy<T> {
    pub(crate) items: Vec<T>,
}

impl<T> Model for Roomy<T> {
    ghost use Rattle.std.specs.Prelude.{◌-◌};
    ghost use Rattle.std.specs.Vec.{vec_capacity, vec_len};
    ghost use Rattle.wf_kept.specs.Room.{Room, room_code};

    ghost Value = { Room T };

    ghost coded = { room_code T.code };

    ghost view = { λ r. record { items = r.items.items; spare = vec_capacity r.items - vec_len r.items } };
}

impl<T> Roomy<T> {
    pub fn new(alloc: Global) -> Roomy<T>
        ensures { result.items ≡ [] }
    {
        Roomy {
            items: Vec::new(alloc),
        }
    }

    pub fn as_slice(&self) -> &[T]
        ensures { result.now ≡ self.now.items }
    {
        self.items.as_slice()
    }
}

impl<T: Drop> Roomy<T> {
    pub fn reserve(&mut self, more: usize) -> Result<(), AllocError>
        ensures items { self.new.items ≡ self.old.items }
        ensures room { OnOk result (more ≤ self.new.spare) }
        ensures kept { self.old.spare ≤ self.new.spare }
    {
        self.items.reserve(more)
    }

    /// Adds an item at the end.
    pub fn add(&mut self, item: T)
        requires { 0 < self.old.spare }
        ensures items { self.new.items ≡ self.old.items ++ item ∷ [] }
        ensures room { self.old.spare ≤ self.new.spare + 1 }
    {
        let _ = self.items.push(item);
    }

    /// Puts an item before the one at that place.
    pub fn insert(&mut self, at: usize, item: T)
        requires room { 0 < self.old.spare }
        requires within { at ≤ length self.old.items }
        ensures items { self.new.items ≡ insert self.old.items at item }
        ensures room { self.old.spare ≤ self.new.spare + 1 }
    {
        let _ = self.items.insert(at, item);
    }

    /// Takes the item at that place out, and gives it back.
    pub fn remove(&mut self, at: usize) -> T
        requires { at < length self.old.items }
        ensures item { slice_get self.old.items at ≡ Some result }
        ensures items { self.new.items ≡ remove self.old.items at }
        ensures room { self.old.spare ≤ self.new.spare }
    {
        self.items.remove(at)
    }

    pub fn set(&mut self, at: usize, item: T)
        requires { at < length self.old.items }
        ensures items { self.new.items ≡ slice_set self.old.items at item }
        ensures room { self.new.spare ≡ self.old.spare }
    {
        self.items[at] = item;
    }

    /// Puts an item in the place of the one at that place, which it gives back.
    pub fn replace(&mut self, at: usize, item: T) -> T
        requires { at < length self.old.items }
        ensures old { slice_get self.old.items at ≡ Some result }
        ensures items { self.new.items ≡ slice_set self.old.items at item }
        ensures room { self.new.spare ≡ self.old.spare }
    {
        mem::replace(&mut self.items[at], item)
    }
}
