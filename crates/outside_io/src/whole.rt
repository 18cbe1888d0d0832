// A file that is written as a whole: at each moment its name leads to what it had or to the new bytes.

ghost use Rattle.std.specs.Prelude.{◌≡◌, ◌≢◌, ◌⊎◌, ◌<◌, ℕ, List, Option, Some, None, OnOk, OnErr, IsTrue};
ghost use Rattle.outside_io.specs.Outside.{Rose};
ghost use Rattle.outside_io.specs.Disk.{At, counted, IsOpened, Poured, Special, UntouchedOff};
ghost use Rattle.outside_io.specs.Whole.{Filled, IsForGood, IsFreeBeside, IsNew, KeptWhole, LeavesOnly, OldBut, OldOrNew, Unfilled, WroteWhole};

use crate::{Disk, Found, WriteFault};

// Writes the file that is being made, and puts it under a place.
fn fill<D: Disk>(disk: &mut D, place: &str, bytes: &[u8]) -> Result<(), WriteFault>
    ensures filled { IsTrue D.told → (fresh : List ℕ) → IsNew fresh place.now (D.made disk.old) (D.under disk.old) →
        OnOk result (Filled fresh place.now bytes.now (D.under disk.old) (D.under disk.new) (D.holds disk.new)) }
    ensures refused { IsTrue D.told → (fresh : List ℕ) → IsNew fresh place.now (D.made disk.old) (D.under disk.old) →
        OnErr result (Unfilled fresh (D.under disk.old) (D.under disk.new) (D.made disk.new)) }
    ensures any_moment { IsTrue D.told → (fresh : List ℕ) → IsNew fresh place.now (D.made disk.old) (D.under disk.old) →
        LeavesOnly D.moment D.left_since disk.old disk.new (OldOrNew place.now bytes.now (Some fresh) (D.may_leave disk.old)) }
    ensures links { IsTrue D.told → (n : List ℕ) → D.leads disk.new n ≡ D.leads disk.old n }
    ensures devices { IsTrue D.told → (n : List ℕ) → D.taken disk.new n ≡ D.taken disk.old n }
    ensures counts { D.refusals disk.new ≡ counted result (D.refusals disk.old) }
{
    disk.write(bytes)?;
    disk.keep_permissions()?;
    disk.sync()?;
    disk.take_place(place)
}

// Puts a new file of these bytes under a place, in place of what was there.
fn replace<D: Disk>(disk: &mut D, place: &str, bytes: &[u8]) -> Result<(), WriteFault>
    ensures written { IsTrue D.told → OnOk result (WroteWhole place.now bytes.now (D.under disk.old) (D.under disk.new)) }
    ensures for_good { IsTrue D.told →
        OnOk result (IsForGood place.now bytes.now (D.may_leave disk.new) ⊎ Rose (D.refusals disk.old) (D.refusals disk.new)) }
    ensures kept { IsTrue D.told →
        OnErr result (KeptWhole place.now (D.under disk.old) (D.under disk.new) (D.refusals disk.old) (D.refusals disk.new)) }
    ensures any_moment { IsTrue D.told → (fresh : Option (List ℕ)) × IsFreeBeside place.now (D.under disk.old) fresh ×
        LeavesOnly D.moment D.left_since disk.old disk.new (OldOrNew place.now bytes.now fresh (D.may_leave disk.old)) }
    ensures cause { OnErr result (Rose (D.refusals disk.old) (D.refusals disk.new)) }
    ensures links { IsTrue D.told → (n : List ℕ) → D.leads disk.new n ≡ D.leads disk.old n }
    ensures devices { IsTrue D.told → (n : List ℕ) → D.taken disk.new n ≡ D.taken disk.old n }
{
    disk.create(place)?;
    if let Err(fault) = fill(disk, place, bytes) {
        let _ = disk.remove();
        return Err(fault);
    }
    let _ = disk.settle(place);
    Ok(())
}

/// Makes these bytes the content of the ordinary file to which a name leads, or of a new one if it leads to nothing. Something
/// special takes the bytes as they come.
///
/// The last call of the disk is the sync of the folder. If it alone is refused, the bytes are there, so the answer is `Ok`; a
/// power cut may then undo the write.
pub fn write_whole<D: Disk>(disk: &mut D, name: &str, bytes: &[u8]) -> Result<(), WriteFault>
    // After `Ok`, these bytes are where the name leads, and all else is as it was.
    ensures written { IsTrue D.told → (place : List ℕ) → D.leads disk.old name.now ≡ At place →
        OnOk result (WroteWhole place bytes.now (D.under disk.old) (D.under disk.new)) }
    // They are there for good, if no call of the disk was refused.
    ensures for_good { IsTrue D.told → (place : List ℕ) → D.leads disk.old name.now ≡ At place →
        OnOk result (IsForGood place bytes.now (D.may_leave disk.new) ⊎ Rose (D.refusals disk.old) (D.refusals disk.new)) }
    // After an error, all is as it was, but for a new file whose removal was refused too.
    ensures kept { IsTrue D.told → (place : List ℕ) → D.leads disk.old name.now ≡ At place →
        OnErr result (KeptWhole place (D.under disk.old) (D.under disk.new) (D.refusals disk.old) (D.refusals disk.new)) }
    // A crash at any moment leaves what might have been left before, or the new bytes, all of them.
    ensures any_moment { IsTrue D.told → (place : List ℕ) → D.leads disk.old name.now ≡ At place →
        (fresh : Option (List ℕ)) × IsFreeBeside place (D.under disk.old) fresh ×
        LeavesOnly D.moment D.left_since disk.old disk.new (OldOrNew place bytes.now fresh (D.may_leave disk.old)) }
    // Something special takes all bytes, or a prefix of them at an error; only a file that is reached as an open one changes.
    ensures poured { IsTrue D.told → (opened : Option (List ℕ)) → D.leads disk.old name.now ≡ Special opened →
        Poured result bytes.now (D.taken disk.old name.now) (D.taken disk.new name.now) }
    ensures beside_poured { IsTrue D.told → (opened : Option (List ℕ)) → D.leads disk.old name.now ≡ Special opened →
        UntouchedOff (λ place. opened ≡ Some place) (D.under disk.old) (D.under disk.new) (D.may_leave disk.old) (D.may_leave disk.new) }
    ensures any_moment_poured { IsTrue D.told → (opened : Option (List ℕ)) → D.leads disk.old name.now ≡ Special opened →
        LeavesOnly D.moment D.left_since disk.old disk.new (OldBut (λ place. opened ≡ Some place) (D.may_leave disk.old)) }
    // An error comes only where a call of the disk was refused.
    ensures cause { OnErr result (Rose (D.refusals disk.old) (D.refusals disk.new)) }
    // Each name leads where it led, and a device takes bytes only by its name.
    ensures links { IsTrue D.told → (n : List ℕ) → D.leads disk.new n ≡ D.leads disk.old n }
    ensures devices { IsTrue D.told → (place : List ℕ) → D.leads disk.old name.now ≡ At place →
        (n : List ℕ) → D.taken disk.new n ≡ D.taken disk.old n }
{
    match disk.find(name)? {
        Found::At(place) => replace(disk, place.as_str(), bytes),
        Found::Special => disk.pour(name, bytes),
    }
}
