// A disk, in the words of POSIX: what each call does, and what a crash may leave.

ghost use Rattle.std.specs.Prelude.{◌≡◌, ◌≢◌, ◌⊎◌, ◌≤◌, ◌<◌, ℕ, Bool, List, Option, Some, None, IfOk, OnOk, OnErr, IsErrOf, IsSome, IsTrue, length, vec_len};
ghost use Rattle.outside_io.specs.Outside.{Contents};
ghost use Rattle.outside_io.specs.Disk.{Appended, counted, Created, CrashMoved, Elapses, Lead, At, Special, Moved, Poured, Untouched, UntouchedBut, UntouchedOff, IsOpened};
ghost use Rattle.outside_io.specs.Found.{IsFound};

use crate::{ReadFault, WriteFault};
use std::alloc::Global;

/// What a name leads to, when links are followed.
#[derive(Drop)]
pub enum Found {
    /// This place, where an ordinary file is that may be written, or nothing.
    At(String),
    /// What is no ordinary file: a device, a pipe, a folder, or a file that is reached as one that is open.
    Special,
}

/// A disk, with the one new file that is being made on it. No call but `pour` writes to another file, and none renames or
/// removes another.
///
/// A place is an entry of a folder, as a path without links. A name leads to a place, where an ordinary file is or nothing, or
/// to something special. A disk tells contracts what is under its places, or it does not.
pub trait Disk {
    /// Whether contracts know what is on the disk.
    ghost told: { Bool };

    /// Where a name leads, when links are followed.
    ghost leads: { Self → List ℕ → Lead };

    /// The bytes of the ordinary file under a place.
    ghost under: { Self → Contents };

    /// The bytes that something special took by a name so far.
    ghost taken: { Self → List ℕ → List ℕ };

    /// The place of the new file that is being made.
    ghost made: { Self → Option (List ℕ) };

    /// Which bytes a crash may leave in the file that is now under a place, if it leaves the file there.
    ghost holds: { Self → List ℕ → List ℕ → Type 0 };

    /// What a crash at this moment may leave under a place.
    ghost may_leave: { Self → List ℕ → Option (List ℕ) → Type 0 };

    /// The moment, as a number that does not fall.
    ghost moment: { Self → ℕ };

    /// What a crash at some moment from that one on might have left, during a call or between two.
    ghost left_since: { Self → ℕ → List ℕ → Option (List ℕ) → Type 0 };

    /// How many calls were refused. The count stops at 2^64 - 1.
    ghost refusals: { Self → ℕ };

    /// The bytes of what a name leads to, if there are at most `cap` of them: open and read.
    fn read(&mut self, alloc: Global, name: &str, cap: u64) -> Result<Vec<u8>, ReadFault>
        ensures given { IsTrue told → (place : List ℕ) → leads self.old name.now ≡ At place →
            IfOk result (λ bytes. under self.old place ≡ Some bytes.items) }
        ensures within { IfOk result (λ bytes. vec_len bytes ≤ cap) }
        ensures missing { IsTrue told → (place : List ℕ) → leads self.old name.now ≡ At place →
            IsErrOf result ReadFault.Missing → under self.old place ≡ None }
        ensures too_long { IsTrue told → (place : List ℕ) → leads self.old name.now ≡ At place → (long : ℕ) →
            IsErrOf result (ReadFault.TooLong long) → (bytes : List ℕ) × (under self.old place ≡ Some bytes) × (cap < length bytes) }
        ensures past { (long : ℕ) → IsErrOf result (ReadFault.TooLong long) → cap < long }
        ensures untouched { IsTrue told → Untouched (under self.old) (under self.new) (may_leave self.old) (may_leave self.new) }
        ensures time { IsTrue told → Elapses (moment self.old) (moment self.new) (left_since self.old) (left_since self.new) (may_leave self.new) }
        ensures links { IsTrue told → (n : List ℕ) → leads self.new n ≡ leads self.old n }
        ensures devices { IsTrue told → (n : List ℕ) → taken self.new n ≡ taken self.old n }
        ensures counts { refusals self.new ≡ counted result (refusals self.old) };

    /// What a name leads to: lstat and readlink until no link is left. An ordinary file that may not be written is refused.
    fn find(&mut self, name: &str) -> Result<Found, WriteFault>
        ensures found { IsTrue told → IfOk result (IsFound (leads self.old name.now)) }
        ensures untouched { IsTrue told → Untouched (under self.old) (under self.new) (may_leave self.old) (may_leave self.new) }
        ensures time { IsTrue told → Elapses (moment self.old) (moment self.new) (left_since self.old) (left_since self.new) (may_leave self.new) }
        ensures links { IsTrue told → (n : List ℕ) → leads self.new n ≡ leads self.old n }
        ensures devices { IsTrue told → (n : List ℕ) → taken self.new n ≡ taken self.old n }
        ensures counts { refusals self.new ≡ counted result (refusals self.old) };

    /// Makes a new, empty file in the folder of a place: open with O_CREAT and O_EXCL. It is the file that is being made.
    fn create(&mut self, beside: &str) -> Result<(), WriteFault>
        ensures created { IsTrue told → OnOk result ((fresh : List ℕ) ×
            Created beside.now fresh (under self.old) (under self.new) (may_leave self.old) (may_leave self.new) (made self.new)) }
        ensures refused { IsTrue told → OnErr result (Untouched (under self.old) (under self.new) (may_leave self.old) (may_leave self.new)) }
        ensures time { IsTrue told → Elapses (moment self.old) (moment self.new) (left_since self.old) (left_since self.new) (may_leave self.new) }
        ensures links { IsTrue told → (n : List ℕ) → leads self.new n ≡ leads self.old n }
        ensures devices { IsTrue told → (n : List ℕ) → taken self.new n ≡ taken self.old n }
        ensures counts { refusals self.new ≡ counted result (refusals self.old) };

    /// Writes bytes to the end of the file that is being made: write, until all are taken.
    fn write(&mut self, bytes: &[u8]) -> Result<(), WriteFault>
        ensures wrote { IsTrue told → (fresh : List ℕ) → made self.old ≡ Some fresh → OnOk result (Appended fresh bytes.now (under self.old) (under self.new)) }
        ensures others { IsTrue told → (fresh : List ℕ) → made self.old ≡ Some fresh →
            UntouchedBut fresh (under self.old) (under self.new) (may_leave self.old) (may_leave self.new) }
        ensures made { IsTrue told → made self.new ≡ made self.old }
        ensures time { IsTrue told → Elapses (moment self.old) (moment self.new) (left_since self.old) (left_since self.new) (may_leave self.new) }
        ensures links { IsTrue told → (n : List ℕ) → leads self.new n ≡ leads self.old n }
        ensures devices { IsTrue told → (n : List ℕ) → taken self.new n ≡ taken self.old n }
        ensures counts { refusals self.new ≡ counted result (refusals self.old) };

    /// Gives the file that is being made the owner and the permissions of the file that was under the place beside which it was
    /// made, if there was one: chown and fchmod.
    fn keep_permissions(&mut self) -> Result<(), WriteFault>
        ensures untouched { IsTrue told → Untouched (under self.old) (under self.new) (may_leave self.old) (may_leave self.new) }
        ensures made { IsTrue told → made self.new ≡ made self.old }
        ensures time { IsTrue told → Elapses (moment self.old) (moment self.new) (left_since self.old) (left_since self.new) (may_leave self.new) }
        ensures links { IsTrue told → (n : List ℕ) → leads self.new n ≡ leads self.old n }
        ensures devices { IsTrue told → (n : List ℕ) → taken self.new n ≡ taken self.old n }
        ensures counts { refusals self.new ≡ counted result (refusals self.old) };

    /// Writes the file that is being made to the disk for good: fsync. After it, a crash leaves in the file what it has.
    fn sync(&mut self) -> Result<(), WriteFault>
        ensures durable { IsTrue told → (fresh : List ℕ) → made self.old ≡ Some fresh →
            OnOk result ((bytes : List ℕ) → holds self.new fresh bytes → under self.old fresh ≡ Some bytes) }
        ensures untouched { IsTrue told → Untouched (under self.old) (under self.new) (may_leave self.old) (may_leave self.new) }
        ensures made { IsTrue told → made self.new ≡ made self.old }
        ensures time { IsTrue told → Elapses (moment self.old) (moment self.new) (left_since self.old) (left_since self.new) (may_leave self.new) }
        ensures links { IsTrue told → (n : List ℕ) → leads self.new n ≡ leads self.old n }
        ensures devices { IsTrue told → (n : List ℕ) → taken self.new n ≡ taken self.old n }
        ensures counts { refusals self.new ≡ counted result (refusals self.old) };

    /// Puts the file that is being made under a place, in place of what is there: rename. It is then no longer being made.
    fn take_place(&mut self, to: &str) -> Result<(), WriteFault>
        ensures moved { IsTrue told → (fresh : List ℕ) → made self.old ≡ Some fresh → fresh ≢ to.now →
            OnOk result (Moved fresh to.now (under self.old) (under self.new) (holds self.old) (holds self.new)) }
        ensures refused { IsTrue told → OnErr result ((p : List ℕ) → under self.new p ≡ under self.old p) }
        ensures made { IsTrue told → OnErr result (made self.new ≡ made self.old) }
        ensures crash { IsTrue told → (fresh : List ℕ) → made self.old ≡ Some fresh → fresh ≢ to.now →
            CrashMoved fresh to.now (may_leave self.old) (may_leave self.new) (holds self.old) }
        ensures time { IsTrue told → Elapses (moment self.old) (moment self.new) (left_since self.old) (left_since self.new) (may_leave self.new) }
        ensures links { IsTrue told → (n : List ℕ) → leads self.new n ≡ leads self.old n }
        ensures devices { IsTrue told → (n : List ℕ) → taken self.new n ≡ taken self.old n }
        ensures counts { refusals self.new ≡ counted result (refusals self.old) };

    /// Writes to the disk for good which file is under a place: fsync of the folder.
    fn settle(&mut self, at: &str) -> Result<(), WriteFault>
        ensures durable { IsTrue told → IsSome (under self.old at.now) →
            OnOk result ((c : Option (List ℕ)) → may_leave self.new at.now c → (bytes : List ℕ) × holds self.old at.now bytes × (c ≡ Some bytes)) }
        ensures untouched { IsTrue told → Untouched (under self.old) (under self.new) (may_leave self.old) (may_leave self.new) }
        ensures time { IsTrue told → Elapses (moment self.old) (moment self.new) (left_since self.old) (left_since self.new) (may_leave self.new) }
        ensures links { IsTrue told → (n : List ℕ) → leads self.new n ≡ leads self.old n }
        ensures devices { IsTrue told → (n : List ℕ) → taken self.new n ≡ taken self.old n }
        ensures counts { refusals self.new ≡ counted result (refusals self.old) };

    /// Removes the file that is being made: unlink. It is then no longer being made.
    fn remove(&mut self) -> Result<(), WriteFault>
        ensures removed { IsTrue told → (fresh : List ℕ) → made self.old ≡ Some fresh → OnOk result (under self.new fresh ≡ None) }
        ensures others { IsTrue told → (fresh : List ℕ) → made self.old ≡ Some fresh →
            UntouchedBut fresh (under self.old) (under self.new) (may_leave self.old) (may_leave self.new) }
        ensures time { IsTrue told → Elapses (moment self.old) (moment self.new) (left_since self.old) (left_since self.new) (may_leave self.new) }
        ensures links { IsTrue told → (n : List ℕ) → leads self.new n ≡ leads self.old n }
        ensures devices { IsTrue told → (n : List ℕ) → taken self.new n ≡ taken self.old n }
        ensures counts { refusals self.new ≡ counted result (refusals self.old) };

    /// Writes bytes to something special: open and write, until all are taken. An ordinary file that a name reaches as one that
    /// is open is cut first.
    fn pour(&mut self, name: &str, bytes: &[u8]) -> Result<(), WriteFault>
        ensures poured { IsTrue told → Poured result bytes.now (taken self.old name.now) (taken self.new name.now) }
        ensures others { IsTrue told → UntouchedOff (IsOpened (leads self.old name.now)) (under self.old) (under self.new) (may_leave self.old) (may_leave self.new) }
        ensures time { IsTrue told → Elapses (moment self.old) (moment self.new) (left_since self.old) (left_since self.new) (may_leave self.new) }
        ensures links { IsTrue told → (n : List ℕ) → leads self.new n ≡ leads self.old n }
        ensures counts { refusals self.new ≡ counted result (refusals self.old) };

    /// This moment is one of those since an earlier one.
    ghost counts_now: { (d : Self) (t : ℕ) (p : List ℕ) (c : Option (List ℕ)) → t ≤ moment d → may_leave d p c → left_since d t p c };

    /// Since this moment there is no other.
    ghost only_now: { (d : Self) (p : List ℕ) (c : Option (List ℕ)) → left_since d (moment d) p c → may_leave d p c };
}

// Counts an answer that is an error.
pub(crate) fn tally<T, E>(refusals: &mut u64, answer: &Result<T, E>)
    ensures { refusals.new ≡ counted answer.now refusals.old }
{
    if answer.is_err() {
        *refusals = refusals.saturating_add(1);
    }
}
