// Vectors of entries by rising index.

ghost use Rattle.std.specs.Prelude.{◌≡◌, ◌++◌, ◌&&◌, nat_le, nat_lt, List, Option, map, filter, filter_map, option_map, All, IfOk, OnOk, IsErrOf};
ghost use Rattle.leb_binary.specs.Leb.{IsFront, HasNoFront};
ghost use Rattle.leb_binary.specs.Fronts.{OneFront};
ghost use Rattle.module_ast.specs.Binary.{vec_bytes};
ghost use Rattle.index_remap.specs.Remap.{MapsIndex, map_index, unmap_index};
ghost use Rattle.name_map.specs.NameMaps.{IsRisingVec};
ghost use Rattle.name_map.specs.Sections.{AreEntriesIn};

use crate::entry::Entry;
use crate::fault::Fault;
use index_remap::Remap;
use leb_binary::{Cursor, put_u64};
use module_ast::seq::Seq;
use std::alloc::{AllocError, Global};

// Whether indices still rise: `rises` says whether the ones before did, and `least` is the least that may follow them.
fn goes_on(rises: bool, least: u64, index: u64) -> bool
    ensures { result ≡ (rises && nat_le least index) }
{
    rises && least <= index
}

/// Takes a vector of entries by rising index. Memory grows only as entries are read. After an `Err` the cursor may be
/// anywhere.
pub fn read_entries<E: Entry>(alloc: Global, cursor: &mut Cursor) -> Result<Vec<E>, Fault>
    requires one { OneFront E.is }
    ensures ok { IfOk result (λ v. IsFront (IsRisingVec E.is E.index) cursor.old.left cursor.new.left v.items) }
    ensures malformed { IsErrOf result Fault.Malformed → HasNoFront (IsRisingVec E.is E.index) cursor.old.left }
{
    let count = cursor.read_u32()?;
    let mut entries = Vec::new(alloc);
    let mut least = 0_u64;
    let mut rises = true;
    for _i in 0..count {
        let entry = E::read(alloc, cursor)?;
        let index = u64::from(entry.index());
        rises = goes_on(rises, least, index);
        least = index + 1;
        entries.push(entry)?;
    }
    if !rises {
        return Err(Fault::Malformed);
    }
    Ok(entries)
}

/// The entries that the subsection is; none if the subsection is absent.
pub fn entries_in<E: Entry>(alloc: Global, subsection: Option<&[u8]>) -> Result<Vec<E>, Fault>
    requires one { OneFront E.is }
    ensures ok { IfOk result (λ v. AreEntriesIn (IsRisingVec E.is E.index) (option_map (λ s. s.now) subsection.entry) v.items) }
    ensures malformed { IsErrOf result Fault.Malformed → (es : List E) → AreEntriesIn (IsRisingVec E.is E.index) (option_map (λ s. s.now) subsection.entry) es → ⊥ }
{
    let Some(content) = subsection else {
        return Ok(Vec::new(alloc));
    };
    let mut cursor = Cursor::new(content);
    let entries = read_entries(alloc, &mut cursor)?;
    if cursor.left() != 0 {
        return Err(Fault::Malformed);
    }
    Ok(entries)
}

/// The entries with an index below the bound.
pub fn entries_below<E: Entry>(entries: Seq<E>, bound: u32) -> Seq<E>
    ensures { result ≡ filter (λ e. nat_lt (E.index e) bound) entries }
{
    let mut entries = entries.into_vec();
    entries.retain(|e| e.index() < bound);
    Seq::from_vec(entries)
}

/// Appends the number of the entries, and the entries. After an `Err` any bytes may have been appended.
pub fn put_entries<E: Entry>(out: &mut Vec<u8>, entries: &[E]) -> Result<(), AllocError>
    ensures { OnOk result (out.new.items ≡ out.old.items ++ vec_bytes E.bytes entries.now) }
{
    put_u64(out, entries.len() as u64)?;
    for entry in entries {
        entry.put(out)?;
    }
    Ok(())
}

/// Copies of the entries, with the indices that the functions have in the output.
pub fn map_entries<E: Entry>(
    alloc: Global,
    remap: Remap,
    entries: &[E],
) -> Result<Seq<E>, AllocError>
    requires { All (λ e. MapsIndex remap (E.index e)) entries.now }
    ensures { IfOk result (λ mapped. mapped ≡ map (λ e. E.with_index (map_index remap (E.index e)) e) entries.now) }
{
    let mut mapped = Vec::with_capacity(alloc, entries.len())?;
    for entry in entries {
        let index = remap.map(entry.index());
        mapped.push(entry.copy_at(alloc, index)?)?;
    }
    Ok(Seq::from_vec(mapped))
}

/// Copies of the entries, with the indices that the functions have in the original. The entries of hooks are left out.
pub fn unmap_entries<E: Entry>(
    alloc: Global,
    remap: Remap,
    entries: &[E],
) -> Result<Seq<E>, AllocError>
    ensures { IfOk result (λ unmapped. unmapped ≡ filter_map (λ e. option_map (λ i. E.with_index i e) (unmap_index remap (E.index e))) entries.now) }
{
    let mut unmapped = Vec::new(alloc);
    for entry in entries {
        if let Some(index) = remap.unmap(entry.index()) {
            unmapped.push(entry.copy_at(alloc, index)?)?;
        }
    }
    Ok(Seq::from_vec(unmapped))
}
