// The entries of name maps: a name with its index, and the names of a function's locals.

ghost use Rattle.std.specs.Prelude.{◌≡◌, ◌++◌, ℕ, List, IfOk, OnOk, IsErrOf};
ghost use Rattle.leb_binary.specs.Leb.{IsName, IsFront, HasNoFront};
ghost use Rattle.name_map.specs.NameMaps.{IsNameEntry, IsLocalsEntry};
ghost use Rattle.name_map.specs.Written.{named_bytes, locals_bytes};

use crate::entries::{put_entries, read_entries};
use crate::fault::Fault;
use crate::written::put_sized;
use crate::{Locals, Named};
use index_remap::{DeepCopy, copy_parts};
use leb_binary::{Cursor, put_u32};
use module_ast::name::Name;
use module_ast::seq::Seq;
use std::alloc::{AllocError, Global};

/// An entry of a name map: an index, and a name or the names of locals.
pub trait Entry: Sized + Drop {
    ghost index: { Self → ℕ };

    ghost is: { List ℕ → Self → Type 0 };

    ghost bytes: { Self → List ℕ };

    ghost with_index: { ℕ → Self → Self };

    /// The index of the entry.
    fn index(&self) -> u32
        ensures { result ≡ index self.now };

    /// Takes an entry from the front. After an `Err` the cursor may be anywhere.
    fn read(alloc: Global, cursor: &mut Cursor) -> Result<Self, Fault>
        ensures ok { IfOk result (λ entry. IsFront is cursor.old.left cursor.new.left entry) }
        ensures malformed { IsErrOf result Fault.Malformed → HasNoFront is cursor.old.left };

    /// Appends the entry. After an `Err` any bytes may have been appended.
    fn put(&self, out: &mut Vec<u8>) -> Result<(), AllocError>
        ensures { OnOk result (out.new.items ≡ out.old.items ++ bytes self.now) };

    /// A copy of the entry with this index.
    fn copy_at(&self, alloc: Global, at: u32) -> Result<Self, AllocError>
        ensures { IfOk result (λ copy. copy ≡ with_index at self.now) };
}

/// Takes a name, copied. After an `Err` the cursor may be anywhere.
pub fn read_name(alloc: Global, cursor: &mut Cursor) -> Result<Name, Fault>
    ensures ok { IfOk result (λ n. IsFront IsName cursor.old.left cursor.new.left n) }
    ensures malformed { IsErrOf result Fault.Malformed → HasNoFront IsName cursor.old.left }
{
    let text = cursor.read_name()?;
    let text = text.to_owned(alloc)?;
    Ok(Name::from_string(text))
}

impl Entry for Named {
    ghost index = { λ n. n.index };

    ghost is = { IsNameEntry };

    ghost bytes = { named_bytes };

    ghost with_index = { λ i n. record n { index = i } };

    fn index(&self) -> u32 {
        self.index
    }

    fn read(alloc: Global, cursor: &mut Cursor) -> Result<Named, Fault> {
        let index = cursor.read_u32()?;
        let name = read_name(alloc, cursor)?;
        Ok(Named { index, name })
    }

    fn put(&self, out: &mut Vec<u8>) -> Result<(), AllocError> {
        put_u32(out, self.index)?;
        put_sized(out, self.name.as_str().as_bytes())
    }

    fn copy_at(&self, alloc: Global, at: u32) -> Result<Named, AllocError> {
        let name = self.name.copy(alloc)?;
        Ok(Named { index: at, name })
    }
}

impl DeepCopy for Named {
    fn copy(&self, alloc: Global) -> Result<Named, AllocError> {
        self.copy_at(alloc, self.index)
    }
}

impl Entry for Locals {
    ghost index = { λ l. l.func };

    ghost is = { IsLocalsEntry };

    ghost bytes = { locals_bytes };

    ghost with_index = { λ f l. record l { func = f } };

    fn index(&self) -> u32 {
        self.func
    }

    fn read(alloc: Global, cursor: &mut Cursor) -> Result<Locals, Fault> {
        let func = cursor.read_u32()?;
        let names = read_entries(alloc, cursor)?;
        Ok(Locals {
            func,
            names: Seq::from_vec(names),
        })
    }

    fn put(&self, out: &mut Vec<u8>) -> Result<(), AllocError> {
        put_u32(out, self.func)?;
        put_entries(out, self.names.as_slice())
    }

    fn copy_at(&self, alloc: Global, at: u32) -> Result<Locals, AllocError> {
        let names = copy_parts(alloc, &self.names)?;
        Ok(Locals { func: at, names })
    }
}
