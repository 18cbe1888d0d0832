// A shelf that has the files of a disk.

ghost use Rattle.std.specs.Prelude.{◌≡◌, ◌≤◌, ◌<◌, ◌⊎◌, ℕ, List, Option, Some, None, IfOk, OnOk, OnErr, IsErrOf, IsTrue, length, vec_len};

use crate::{Disk, ReadFault, Shelf, WriteFault, write_whole};
use std::alloc::Global;

/// The files of a disk, under the names that lead to them.
///
/// As a shelf it does not tell its contents, because two names may lead to one file: a write under one of them changes what is
/// under the other. Its own clauses say what is on the disk, place by place.
#[derive(Drop)]
pub struct DiskShelf<D: Disk + Drop> {
    disk: D,
    reads: u64,
    writes: u64,
    read_faults: u64,
    write_faults: u64,
}

impl<D: Disk + Drop> DiskShelf<D> {
    ghost use Rattle.std.specs.Prelude.{◌≡◌};
    ghost use Rattle.outside_io.specs.Faults.{seen_files};

    /// The files of this disk. All counts are 0.
    pub fn new(disk: D) -> DiskShelf<D>
        ensures disk { result.disk ≡ disk }
        ensures uncalled { seen_files result.reads result.writes result.read_faults result.write_faults ≡ seen_files 0 0 0 0 }
    {
        DiskShelf {
            disk,
            reads: 0,
            writes: 0,
            read_faults: 0,
            write_faults: 0,
        }
    }

    /// The disk.
    pub fn disk(&self) -> &D
        ensures { result.now ≡ self.now.disk }
    {
        &self.disk
    }
}

impl<D: Disk + Drop> Shelf for DiskShelf<D> {
    ghost use Rattle.std.specs.Prelude.{◌≡◌, ◌≤◌, ◌<◌, ◌⊎◌, ℕ, List, Option, Some, None, IfOk, OnOk, OnErr, IsErrOf, IsTrue, length, vec_len};
    ghost use Rattle.outside_io.specs.Outside.{Holds, IsMissing, IsTooLong, OnlyRead, OnlyWrote, Rose, Wrote, WrotePart};
    ghost use Rattle.outside_io.specs.Faults.{after_read, after_write, seen_files};
    ghost use Rattle.outside_io.specs.Disk.{At, Poured, Special, UntouchedOff};
    ghost use Rattle.outside_io.specs.Whole.{IsForGood, IsFreeBeside, KeptWhole, LeavesOnly, OldBut, OldOrNew, WroteWhole};

    ghost seen = { λ s. seen_files s.reads s.writes s.read_faults s.write_faults };

    /// The bytes of the file to which a name leads, if there are at most `cap` of them.
    ///
    /// `Missing` if the system finds no such file, `TooLong` if it has more than `cap` bytes, `NoMemory` if memory runs out,
    /// and `Failed` at any other error of the system. `TooLong` has the number of bytes that were taken: reading stops when
    /// more than `cap` bytes are. Each error except `NoMemory` is counted as a fault.
    fn read(&mut self, alloc: Global, name: &str, cap: u64) -> Result<Vec<u8>, ReadFault>
        ensures given { IfOk result (λ bytes. Holds None name.now bytes.items) }
        ensures within { IfOk result (λ bytes. vec_len bytes ≤ cap) }
        ensures missing { IsErrOf result ReadFault.Missing →
            IsMissing None name.now self.old.read_faults self.new.read_faults }
        ensures too_long { (long : ℕ) → IsErrOf result (ReadFault.TooLong long) →
            IsTooLong None name.now cap long self.old.read_faults self.new.read_faults }
        ensures failed { IsErrOf result ReadFault.Failed → Rose self.old.read_faults self.new.read_faults }
        ensures once { OnlyRead 1 (seen_files self.old.reads self.old.writes self.old.read_faults self.old.write_faults)
            (seen_files self.new.reads self.new.writes self.new.read_faults self.new.write_faults) }

        ensures counted { self.new.read_faults ≡ after_read result self.old.read_faults }
        ensures past { (long : ℕ) → IsErrOf result (ReadFault.TooLong long) → cap < long }

        // The bytes are those that are where the name leads; if nothing is there, or too much, that is so.
        ensures bytes { IsTrue D.told → (place : List ℕ) → D.leads self.old.disk name.now ≡ At place →
            IfOk result (λ bytes. D.under self.old.disk place ≡ Some bytes.items) }
        ensures nothing { IsTrue D.told → (place : List ℕ) → D.leads self.old.disk name.now ≡ At place →
            IsErrOf result ReadFault.Missing → D.under self.old.disk place ≡ None }
        ensures more { IsTrue D.told → (place : List ℕ) → D.leads self.old.disk name.now ≡ At place → (long : ℕ) →
            IsErrOf result (ReadFault.TooLong long) → (bytes : List ℕ) × (D.under self.old.disk place ≡ Some bytes) × (cap < length bytes) }
        ensures same { IsTrue D.told → (place : List ℕ) → D.under self.new.disk place ≡ D.under self.old.disk place }
    {
        self.reads = self.reads.saturating_add(1);
        let answer = self.disk.read(alloc, name, cap);
        match answer {
            Ok(_) | Err(ReadFault::NoMemory) => {}
            Err(_) => self.read_faults = self.read_faults.saturating_add(1),
        }
        answer
    }

    /// Makes these bytes the content of the file to which a name leads, as `write_whole` does.
    ///
    /// `NoMemory` if memory runs out, and `Failed` at any other error of the system. Only `Failed` is counted as a fault.
    fn write(&mut self, name: &str, bytes: &[u8]) -> Result<(), WriteFault>
        ensures written { OnOk result (Wrote name.now bytes.now None None) }
        ensures part { OnErr result (WrotePart name.now bytes.now None None) }
        ensures failed { IsErrOf result WriteFault.Failed → Rose self.old.write_faults self.new.write_faults }
        ensures once { OnlyWrote 1 (seen_files self.old.reads self.old.writes self.old.read_faults self.old.write_faults)
            (seen_files self.new.reads self.new.writes self.new.read_faults self.new.write_faults) }

        ensures counted { self.new.write_faults ≡ after_write result self.old.write_faults }

        // After `Ok`, these bytes are where the name leads, and all else is as it was.
        ensures whole { IsTrue D.told → (place : List ℕ) → D.leads self.old.disk name.now ≡ At place →
            OnOk result (WroteWhole place bytes.now (D.under self.old.disk) (D.under self.new.disk)) }
        // They are there for good, if no call of the disk was refused.
        ensures for_good { IsTrue D.told → (place : List ℕ) → D.leads self.old.disk name.now ≡ At place →
            OnOk result (IsForGood place bytes.now (D.may_leave self.new.disk) ⊎ Rose (D.refusals self.old.disk) (D.refusals self.new.disk)) }
        // After an error, all is as it was, but for a new file whose removal was refused too.
        ensures kept { IsTrue D.told → (place : List ℕ) → D.leads self.old.disk name.now ≡ At place →
            OnErr result (KeptWhole place (D.under self.old.disk) (D.under self.new.disk) (D.refusals self.old.disk) (D.refusals self.new.disk)) }
        // A crash at any moment leaves what might have been left before, or the new bytes, all of them.
        ensures any_moment { IsTrue D.told → (place : List ℕ) → D.leads self.old.disk name.now ≡ At place →
            (fresh : Option (List ℕ)) × IsFreeBeside place (D.under self.old.disk) fresh ×
            LeavesOnly D.moment D.left_since self.old.disk self.new.disk (OldOrNew place bytes.now fresh (D.may_leave self.old.disk)) }
        // Something special takes all bytes, or a prefix of them at an error; only a file that is reached as an open one changes.
        ensures poured { IsTrue D.told → (opened : Option (List ℕ)) → D.leads self.old.disk name.now ≡ Special opened →
            Poured result bytes.now (D.taken self.old.disk name.now) (D.taken self.new.disk name.now) }
        ensures beside_poured { IsTrue D.told → (opened : Option (List ℕ)) → D.leads self.old.disk name.now ≡ Special opened →
            UntouchedOff (λ place. opened ≡ Some place) (D.under self.old.disk) (D.under self.new.disk) (D.may_leave self.old.disk) (D.may_leave self.new.disk) }
        ensures any_moment_poured { IsTrue D.told → (opened : Option (List ℕ)) → D.leads self.old.disk name.now ≡ Special opened →
            LeavesOnly D.moment D.left_since self.old.disk self.new.disk (OldBut (λ place. opened ≡ Some place) (D.may_leave self.old.disk)) }
        // Each name leads where it led.
        ensures links { IsTrue D.told → (n : List ℕ) → D.leads self.new.disk n ≡ D.leads self.old.disk n }
    {
        self.writes = self.writes.saturating_add(1);
        let answer = write_whole(&mut self.disk, name, bytes);
        if let Err(WriteFault::Failed) = answer {
            self.write_faults = self.write_faults.saturating_add(1);
        }
        answer
    }
}
