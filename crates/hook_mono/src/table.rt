// The hooks of a module: keys in the order in which they were first needed.

ghost use Rattle.std.specs.Prelude.{◌≡◌, ◌+◌, ◌<◌, ◌^◌, ◌↔◌, [], length, slice_get, option_copied, Some, IfOk, OnOk, OnErr, IsTrue};
ghost use Rattle.std.specs.List.{IsDistinct};
ghost use Rattle.hook_mono.specs.Keys.{key_eq, find_key, with_key};

use crate::HookKey;
use indexmap::IndexSet;
use std::alloc::Global;
use std::marker::Model;
use wasm_num::NoMemory;

/// The hooks of a module: distinct keys, numbered from 0 in the order in which they were added. Contracts see the list of keys.
/// A key is looked up by its hash, in time that does not grow with the table.
pub struct HookTable {
    keys: IndexSet<HookKey>,
}

// Dropped by hand: each early return past a value of this type then costs one proof step instead of one per field.
impl Drop for HookTable {
    fn drop(self) {
        let HookTable { keys: _keys } = self;
    }
}

impl Model for HookTable {
    ghost use Rattle.std.specs.Prelude.{List, length, ◌<◌, ◌^◌};
    ghost use Rattle.hook_mono.specs.declared.HookKey.{HookKey as Key};

    ghost Value = { List Key };

    ghost view = { λ t. t.keys.keys };

    ghost invariant = { λ t. length t.keys.keys < 2 ^ 32 };
}

impl HookTable {
    /// A table without keys. Takes no memory.
    pub fn new(alloc: Global) -> HookTable
        ensures { result ≡ [] }
    {
        HookTable {
            keys: IndexSet::new(alloc),
        }
    }

    /// The number of a key, which is added as the last one if it is new.
    ///
    /// `NoMemory` if memory runs out; the table is then as it was.
    pub fn need(&mut self, key: HookKey) -> Result<u32, NoMemory>
        requires { length self.old + 1 < 2 ^ 32 }
        ensures keys { OnOk result (self.new ≡ with_key self.old key) }
        ensures number { IfOk result (λ number. find_key self.new key ≡ Some number) }
        ensures err { OnErr result (self.new ≡ self.old) }
    {
        let (place, _) = self.keys.insert_full(key)?;
        Ok(place as u32)
    }

    /// The number of a key, if it is in the table.
    pub fn find(&self, key: &HookKey) -> Option<u32>
        ensures { result ≡ find_key self.now key.now }
    {
        match self.keys.get_index_of(key) {
            Some(place) => Some(place as u32),
            None => None,
        }
    }

    /// The key with this number; `None` if the number is past the last one.
    pub fn key_at(&self, number: u32) -> Option<&HookKey>
        ensures { option_copied result ≡ slice_get self.now number }
    {
        self.keys.get_index(number as usize)
    }

    /// How many keys there are, fewer than 2^32.
    pub fn len(&self) -> u32
        ensures len { result ≡ length self.now }

        // No key is there twice.
        ensures distinct { IsDistinct key_eq self.now }
    {
        self.keys.len() as u32
    }

    /// Whether there are no keys.
    pub fn is_empty(&self) -> bool
        ensures { IsTrue result ↔ (length self.now ≡ 0) }
    {
        self.keys.is_empty()
    }

    /// The keys, in order.
    pub fn as_slice(&self) -> &[HookKey]
        ensures { result.now ≡ self.now }
    {
        self.keys.as_slice()
    }

    /// The keys, in order, as a `Vec` of their own.
    ///
    /// `NoMemory` if memory runs out.
    pub fn into_keys(self, alloc: Global) -> Result<Vec<HookKey>, NoMemory>
        ensures { IfOk result (λ keys. keys.items ≡ self) }
    {
        let HookTable { keys } = self;
        keys.into_iter().collect(alloc)
    }
}
