// Copies of the parts of a module.

ghost use Rattle.std.specs.Prelude.{◌≡◌, IfOk};

use crate::Remap;
use module_ast::code::Code;
use module_ast::module::{FuncType, GlobalDef, Import, Segment};
use module_ast::name::Name;
use module_ast::seq::Seq;
use std::alloc::{AllocError, Global};

/// What is copied with all that it owns.
pub trait DeepCopy: Sized + Drop {
    /// A copy. An `AllocError` if memory runs out.
    fn copy(&self, alloc: Global) -> Result<Self, AllocError>
        ensures { IfOk result (λ copy. copy ≡ self.now) };
}

/// A copy of the sequence and of each part. An `AllocError` if memory runs out.
pub fn copy_parts<T: DeepCopy>(alloc: Global, parts: &Seq<T>) -> Result<Seq<T>, AllocError>
    ensures { IfOk result (λ copies. copies ≡ parts.now) }
{
    let items = parts.as_slice();
    let mut copies = Vec::with_capacity(alloc, items.len())?;
    for part in items {
        copies.push(part.copy(alloc)?)?;
    }
    Ok(Seq::from_vec(copies))
}

/// A copy of the sequence. An `AllocError` if memory runs out.
pub fn copy_list<T: Copy>(alloc: Global, list: &Seq<T>) -> Result<Seq<T>, AllocError>
    ensures { IfOk result (λ copy. copy ≡ list.now) }
{
    let items = Vec::from_slice(alloc, list.as_slice())?;
    Ok(Seq::from_vec(items))
}

impl DeepCopy for Name {
    #[tactic(auto, using(leb_binary::proofs::Texts::texts_alike))]
    fn copy(&self, alloc: Global) -> Result<Name, AllocError> {
        let text = String::from_str(alloc, self.as_str())?;
        Ok(Name::from_string(text))
    }
}

impl DeepCopy for Code {
    // A remapping that adds nothing copies the code.
    #[tactic(auto, using(crate::proofs::Nothing::map_tree_nothing, crate::proofs::Nothing::maps_nothing))]
    fn copy(&self, alloc: Global) -> Result<Code, AllocError> {
        let nothing = Remap {
            imports: 0,
            added: 0,
        };
        nothing.map_code(alloc, self)
    }
}

impl DeepCopy for FuncType {
    fn copy(&self, alloc: Global) -> Result<FuncType, AllocError> {
        let params = copy_list(alloc, &self.params)?;
        let results = copy_list(alloc, &self.results)?;
        Ok(FuncType { params, results })
    }
}

impl DeepCopy for Import {
    fn copy(&self, alloc: Global) -> Result<Import, AllocError> {
        let module = self.module.copy(alloc)?;
        let name = self.name.copy(alloc)?;
        let item = self.item;
        Ok(Import { module, name, item })
    }
}

impl DeepCopy for GlobalDef {
    fn copy(&self, alloc: Global) -> Result<GlobalDef, AllocError> {
        let init = self.init.copy(alloc)?;
        Ok(GlobalDef { ty: self.ty, init })
    }
}

impl DeepCopy for Segment {
    fn copy(&self, alloc: Global) -> Result<Segment, AllocError> {
        let offset = self.offset.copy(alloc)?;
        let bytes = copy_list(alloc, &self.bytes)?;
        Ok(Segment {
            memory: self.memory,
            offset,
            bytes,
        })
    }
}
