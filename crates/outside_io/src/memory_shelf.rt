// A shelf in memory, on which listed calls fail.

ghost use Rattle.std.specs.Prelude.{◌≡◌, Some, None, OnOk, OnErr};
ghost use Rattle.outside_io.specs.Outside.{Wrote, Unchanged};
ghost use Rattle.outside_io.specs.Shelved.{map_contents, contents_of, AnswersRead};

use crate::calls::{Calls, Fail, front};
use crate::{NoMemory, ReadFault, Shelf, WriteFault};
use std::alloc::Global;
use std::collections::BTreeMap;
use std::marker::Model;

/// Bytes under names, in memory. The contents are known to contracts. Reads and writes are numbered together, from 0, and a
/// call is made to fail if its number is listed. Calls after number 2^64 - 1 have no number, and none of them is made to fail.
#[derive(Drop)]
pub struct MemoryShelf {
    alloc: Global,
    held: BTreeMap<String, Vec<u8>>,
    calls: Calls,
    reads: u64,
    writes: u64,
    read_faults: u64,
    write_faults: u64,
}

impl Model for MemoryShelf {
    ghost use Rattle.std.specs.Prelude.{◌≡◌, ◌+◌};
    ghost use Rattle.outside_io.specs.Calls.{listed_calls_made};
    ghost use Rattle.outside_io.specs.Shelved.{ShelfInMemory};

    ghost Value = { ShelfInMemory };

    ghost view = { λ s. record {
      held = s.held.entries;
      calls = s.calls;
      reads = s.reads;
      writes = s.writes;
      read_faults = s.read_faults;
      write_faults = s.write_faults;
    } };

    ghost invariant = { λ s. s.read_faults + s.write_faults ≡ listed_calls_made s.calls };
}

impl MemoryShelf {
    ghost use Rattle.std.specs.Prelude.{option_map, OnOk, OnErr, List, ℕ, ◌+◌};
    ghost use Rattle.outside_io.specs.Calls.{listed_calls_made};
    ghost use Rattle.outside_io.specs.Outside.{Wrote, Unchanged};
    ghost use Rattle.outside_io.specs.Shelved.{map_contents, contents_of};

    /// An empty shelf, on which these calls fail. All counts are 0.
    pub fn new(alloc: Global, fails: Vec<Fail>) -> MemoryShelf
        ensures empty { (name : List ℕ) → map_contents result.held name ≡ None }
        ensures fails { result.calls.fails ≡ fails.items }
        ensures next { result.calls.next ≡ Some 0 }
        ensures uncalled { (result.reads ≡ 0) × (result.writes ≡ 0) }
        ensures faultless { (result.read_faults ≡ 0) × (result.write_faults ≡ 0) }
        ensures counts { result.read_faults + result.write_faults ≡ listed_calls_made result.calls }
    {
        MemoryShelf {
            alloc,
            held: BTreeMap::new(alloc),
            calls: Calls::new(fails),
            reads: 0,
            writes: 0,
            read_faults: 0,
            write_faults: 0,
        }
    }

    /// Puts bytes under a name, in place of what was there. This counts as no call.
    ///
    /// `NoMemory` if memory runs out; the contents are then as they were.
    pub fn add(&mut self, name: &str, bytes: &[u8]) -> Result<(), NoMemory>
        ensures added { OnOk result (Wrote name.now bytes.now (contents_of self.old.held) (contents_of self.new.held)) }
        ensures unchanged { OnErr result (Unchanged (contents_of self.old.held) (contents_of self.new.held)) }
        ensures calls { self.new.calls ≡ self.old.calls }
        ensures uncalled { (self.new.reads ≡ self.old.reads) × (self.new.writes ≡ self.old.writes) }
        ensures faultless { (self.new.read_faults ≡ self.old.read_faults) × (self.new.write_faults ≡ self.old.write_faults) }
        ensures counts { self.new.read_faults + self.new.write_faults ≡ listed_calls_made self.new.calls }
    {
        put_under(&mut self.held, self.alloc, name, bytes)
    }

    /// The bytes under a name, or `None` if nothing is there. This counts as no call.
    pub fn bytes_of(&self, name: &str) -> Option<&[u8]>
        ensures { option_map (λ bytes. bytes.now) result ≡ map_contents self.now.held name.now }
    {
        match self.held.get(name) {
            Some(bytes) => Some(bytes.as_slice()),
            None => None,
        }
    }
}

impl Shelf for MemoryShelf {
    ghost use Rattle.std.specs.Prelude.{ℕ, ◌+◌, ◌≤◌, if◌then◌else◌, IfOk, OnOk, OnErr, IsErrOf, IsSome, vec_len, is_some, take, ◌⊎◌};
    ghost use Rattle.outside_io.specs.Outside.{Holds, IsMissing, IsTooLong, OnlyRead, OnlyWrote, Rose, Unchanged, Wrote, WrotePart};
    ghost use Rattle.outside_io.specs.Calls.{failing_next, listed_calls_made, CountsCall};
    ghost use Rattle.outside_io.specs.Shelved.{map_contents, contents_of, seen_shelf, AnswersRead};

    ghost seen = { seen_shelf };

    /// The bytes under a name, if there are at most `cap` of them.
    ///
    /// `Failed` if and only if the call is listed. If it is not, `Missing` if nothing is under the name, `TooLong` with the
    /// number of bytes if there are more than `cap`, and `NoMemory` if memory runs out.
    fn read(&mut self, alloc: Global, name: &str, cap: u64) -> Result<Vec<u8>, ReadFault>
        ensures given { IfOk result (λ bytes. Holds (contents_of self.old.held) name.now bytes.items) }
        ensures within { IfOk result (λ bytes. vec_len bytes ≤ cap) }
        ensures missing { IsErrOf result ReadFault.Missing →
            IsMissing (contents_of self.old.held) name.now self.old.read_faults self.new.read_faults }
        ensures too_long { (long : ℕ) → IsErrOf result (ReadFault.TooLong long) →
            IsTooLong (contents_of self.old.held) name.now cap long self.old.read_faults self.new.read_faults }
        ensures failed { IsErrOf result ReadFault.Failed → Rose self.old.read_faults self.new.read_faults }
        ensures once { OnlyRead 1 (seen_shelf self.old) (seen_shelf self.new) }

        ensures counted { CountsCall self.old.calls self.new.calls }
        ensures counts { self.new.read_faults + self.new.write_faults ≡ listed_calls_made self.new.calls }
        ensures faults { self.new.read_faults ≡ self.old.read_faults + (if is_some (failing_next self.old.calls) then 1 else 0) }
        ensures listed { IsSome (failing_next self.old.calls) → IsErrOf result ReadFault.Failed }
        ensures unlisted { failing_next self.old.calls ≡ None → AnswersRead (map_contents self.old.held name.now) cap result }
    {
        self.reads = self.reads.saturating_add(1);
        if self.calls.count().is_some() {
            self.read_faults += 1;
            return Err(ReadFault::Failed);
        }
        read_under(&self.held, alloc, name, cap)
    }

    /// Puts bytes under a name, in place of what was there.
    ///
    /// `Failed` if the call is listed: it keeps the first bytes, as many as the list says. `NoMemory` if memory runs out,
    /// whether the call is listed or not; the contents are then as they were. A listed call is counted as a fault with either
    /// error.
    fn write(&mut self, name: &str, bytes: &[u8]) -> Result<(), WriteFault>
        ensures written { OnOk result (Wrote name.now bytes.now (contents_of self.old.held) (contents_of self.new.held)) }
        ensures part { OnErr result (WrotePart name.now bytes.now (contents_of self.old.held) (contents_of self.new.held)) }
        ensures failed { IsErrOf result WriteFault.Failed → Rose self.old.write_faults self.new.write_faults }
        ensures once { OnlyWrote 1 (seen_shelf self.old) (seen_shelf self.new) }

        ensures counted { CountsCall self.old.calls self.new.calls }
        ensures counts { self.new.read_faults + self.new.write_faults ≡ listed_calls_made self.new.calls }
        ensures faults { self.new.write_faults ≡ self.old.write_faults + (if is_some (failing_next self.old.calls) then 1 else 0) }
        ensures listed { IsSome (failing_next self.old.calls) → IsErrOf result WriteFault.Failed ⊎ IsErrOf result WriteFault.NoMemory }
        ensures unlisted { IsErrOf result WriteFault.Failed → IsSome (failing_next self.old.calls) }
        ensures front { (kept : ℕ) → failing_next self.old.calls ≡ Some kept → IsErrOf result WriteFault.Failed →
            Wrote name.now (take kept bytes.now) (contents_of self.old.held) (contents_of self.new.held) }
        ensures no_memory { IsErrOf result WriteFault.NoMemory → Unchanged (contents_of self.old.held) (contents_of self.new.held) }
    {
        self.writes = self.writes.saturating_add(1);
        match self.calls.count() {
            Some(kept) => {
                self.write_faults += 1;
                put_under(&mut self.held, self.alloc, name, front(bytes, kept))?;
                Err(WriteFault::Failed)
            }
            None => Ok(put_under(&mut self.held, self.alloc, name, bytes)?),
        }
    }
}

// Puts bytes under a name. `NoMemory` if memory runs out; the contents are then as they were.
fn put_under(
    held: &mut BTreeMap<String, Vec<u8>>,
    alloc: Global,
    name: &str,
    bytes: &[u8],
) -> Result<(), NoMemory>
    ensures written { OnOk result (Wrote name.now bytes.now (contents_of held.old.entries) (contents_of held.new.entries)) }
    ensures unchanged { OnErr result (Unchanged (contents_of held.old.entries) (contents_of held.new.entries)) }
{
    let key = String::from_str(alloc, name)?;
    let value = Vec::from_slice(alloc, bytes)?;
    held.insert(key, value)?;
    Ok(())
}

// A copy of the bytes under a name, if there are at most `cap` of them.
fn read_under(
    held: &BTreeMap<String, Vec<u8>>,
    alloc: Global,
    name: &str,
    cap: u64,
) -> Result<Vec<u8>, ReadFault>
    ensures { AnswersRead (map_contents held.now.entries name.now) cap result }
{
    let Some(bytes) = held.get(name) else {
        return Err(ReadFault::Missing);
    };
    let length = bytes.len() as u64;
    if length > cap {
        return Err(ReadFault::TooLong { length });
    }
    Ok(Vec::from_slice(alloc, bytes)?)
}
