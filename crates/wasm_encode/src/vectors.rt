// Vectors (5.1.3) and sections (5.5.2) of entries of any type.

ghost use Rattle.std.specs.Prelude.{◌≡◌, ◌+◌, ◌++◌, ◌<◌, ◌^◌, ℕ, List, OnOk, All, length};
ghost use Rattle.leb_binary.specs.Shortest.{unsigned_bytes};
ghost use Rattle.module_ast.specs.Binary.{FitsIndex, items_bytes, vec_bytes, vec_section};

use crate::numbers::{index_length, put_sized};
use leb_binary::{put_u32, put_u64, unsigned_length};
use std::alloc::{AllocError, Global};

/// A part of a module that has one canonical spelling, whose length is known before it is written.
pub trait Encode {
    ghost bytes: { Self → List ℕ };

    // What the length shows: that the numbers in the value fit their encodings.
    ghost fits: { Self → Type 0 };

    /// The number of bytes of the spelling.
    fn spelled_length(&self) -> u64
        requires { length (bytes self.now) < 2 ^ 63 }
        ensures length { result ≡ length (bytes self.now) }
        ensures fit { fits self.now };

    /// Appends the spelling. An `AllocError` if memory runs out.
    fn put(&self, out: &mut Vec<u8>) -> Result<(), AllocError>
        ensures { OnOk result (out.new.items ≡ out.old.items ++ bytes self.now) };
}

impl Encode for u32 {
    ghost bytes = { unsigned_bytes };

    ghost fits = { FitsIndex };

    fn spelled_length(&self) -> u64 {
        index_length(*self)
    }

    fn put(&self, out: &mut Vec<u8>) -> Result<(), AllocError> {
        put_u32(out, *self)
    }
}

/// The number of bytes of a vector of these entries, which begins with their number.
#[tactic(auto, using(std::proofs::lemmas::Grind::common_steps))]
pub fn vec_length<T: Encode>(entries: &[T]) -> u64
    requires { length (vec_bytes T.bytes entries.now) < 2 ^ 63 }
    ensures length { result ≡ length (vec_bytes T.bytes entries.now) }
    ensures fit { All T.fits entries.now }
{
    let mut total = unsigned_length(entries.len() as u64);
    for entry in entries {
        total += entry.spelled_length();
    }
    total
}

// Appends the entries without their number.
#[tactic(auto, using(std::proofs::lemmas::Grind::common_steps))]
fn put_items<T: Encode>(out: &mut Vec<u8>, entries: &[T]) -> Result<(), AllocError>
    ensures { OnOk result (out.new.items ≡ out.old.items ++ items_bytes T.bytes entries.now) }
{
    for entry in entries {
        entry.put(out)?;
    }
    Ok(())
}

/// Appends a vector: the number of the entries, and the entries.
pub fn put_vec<T: Encode>(out: &mut Vec<u8>, entries: &[T]) -> Result<(), AllocError>
    ensures { OnOk result (out.new.items ≡ out.old.items ++ vec_bytes T.bytes entries.now) }
{
    put_u64(out, entries.len() as u64)?;
    put_items(out, entries)
}

/// The number of bytes of a section of these entries, with its id and size; 0 if there are none.
#[tactic(auto, using(std::proofs::lemmas::Grind::common_steps))]
pub fn section_length<T: Encode>(id: u8, entries: &[T]) -> u64
    requires { length (vec_section id T.bytes entries.now) < 2 ^ 63 }
    ensures length { result ≡ length (vec_section id T.bytes entries.now) }
    ensures fit { All T.fits entries.now }
{
    if entries.is_empty() {
        return 0;
    }
    let size = vec_length(entries);
    1 + unsigned_length(size) + size
}

/// Appends a section of these entries; nothing if there are none.
#[tactic(auto, using(std::proofs::lemmas::Grind::common_steps))]
pub fn put_section<T: Encode>(out: &mut Vec<u8>, id: u8, entries: &[T]) -> Result<(), AllocError>
    requires { length (vec_section id T.bytes entries.now) < 2 ^ 63 }
    ensures { OnOk result (out.new.items ≡ out.old.items ++ vec_section id T.bytes entries.now) }
{
    if entries.is_empty() {
        return Ok(());
    }
    out.push(id)?;
    put_u64(out, vec_length(entries))?;
    put_vec(out, entries)
}

/// Appends a section whose entries are those of `first` and then those of `second`; nothing if there are none. They are
/// first written apart, which saves counting their bytes.
#[tactic(auto, using(crate::proofs::Runs::no_section, crate::proofs::Runs::section_of_runs))]
pub fn put_runs<T: Encode>(
    alloc: Global,
    out: &mut Vec<u8>,
    id: u8,
    first: &[T],
    second: &[T],
) -> Result<(), AllocError>
    requires { length first.now + length second.now < 2 ^ 64 }
    ensures { OnOk result (out.new.items ≡ out.old.items ++ vec_section id T.bytes (first.now ++ second.now)) }
{
    let count = first.len() as u64 + second.len() as u64;
    if count == 0 {
        return Ok(());
    }
    let mut content = Vec::new(alloc);
    put_u64(&mut content, count)?;
    put_items(&mut content, first)?;
    put_items(&mut content, second)?;
    out.push(id)?;
    put_sized(out, &content)?;
    Ok(())
}

/// Appends a section of these entries as `put_runs` does.
pub fn put_run<T: Encode>(
    alloc: Global,
    out: &mut Vec<u8>,
    id: u8,
    entries: &[T],
) -> Result<(), AllocError>
    ensures { OnOk result (out.new.items ≡ out.old.items ++ vec_section id T.bytes entries.now) }
{
    put_runs(alloc, out, id, entries, &[])
}
