// Names taken to an output, and back.

ghost use Rattle.std.specs.Prelude.{◌≡◌, All, IfOk};
ghost use Rattle.index_remap.specs.Remap.{MapsIndex};
ghost use Rattle.name_map.specs.Names.{map_names, unmap_names};

use crate::Names;
use crate::entries::{map_entries, unmap_entries};
use index_remap::{DeepCopy, Remap};
use module_ast::name::Name;
use std::alloc::{AllocError, Global};

// A copy of the module's name, if there is one.
fn copy_module(alloc: Global, given: &Option<Name>) -> Result<Option<Name>, AllocError>
    ensures { IfOk result (λ copy. copy ≡ given.now) }
{
    match given {
        Some(name) => Ok(Some(name.copy(alloc)?)),
        None => Ok(None),
    }
}

/// The names in the output, copied: the module keeps its name, and each function has its name and those of its locals
/// at the index that it has in the output. An `AllocError` if memory runs out.
pub fn map_names(alloc: Global, names: &Names, remap: Remap) -> Result<Names, AllocError>
    requires functions { All (λ n. MapsIndex remap n.index) names.now.functions }
    requires locals { All (λ l. MapsIndex remap l.func) names.now.locals }
    ensures { IfOk result (λ mapped. mapped ≡ map_names remap names.now) }
{
    Ok(Names {
        module: copy_module(alloc, &names.module)?,
        functions: map_entries(alloc, remap, names.functions.as_slice())?,
        locals: map_entries(alloc, remap, names.locals.as_slice())?,
    })
}

/// The names in the original, copied, from those in the output. The names of hooks are left out. An `AllocError` if
/// memory runs out.
pub fn unmap_names(alloc: Global, names: &Names, remap: Remap) -> Result<Names, AllocError>
    ensures { IfOk result (λ unmapped. unmapped ≡ unmap_names remap names.now) }
{
    Ok(Names {
        module: copy_module(alloc, &names.module)?,
        functions: unmap_entries(alloc, remap, names.functions.as_slice())?,
        locals: unmap_entries(alloc, remap, names.locals.as_slice())?,
    })
}
