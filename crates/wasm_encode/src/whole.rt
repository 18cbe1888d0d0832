// Whole modules (5.5.15).

ghost use Rattle.std.specs.Prelude.{◌≡◌, ◌<◌, ◌^◌, [], IfOk, All, length};
ghost use Rattle.module_ast.specs.declared.module.Body.{Body};
ghost use Rattle.module_ast.specs.Binary.{FitsCode, Fits, locals_of, module_bytes};
ghost use Rattle.wasm_encode.specs.Outline.{entries_bytes};

use crate::bodies::{bodies_section_length, put_bodies_section};
use crate::outline::Outline;
use crate::sections::start_length;
use crate::tables::table_section_length;
use crate::vectors::section_length;
use module_ast::module::Module;
use std::alloc::{AllocError, Global};

/// The number of canonical bytes of a module, if the entries of its bodies have `bodies` bytes.
#[tactic(auto, using(crate::proofs::Totals::module_total))]
pub fn module_length(m: &Module, bodies: u64) -> u64
    requires bodies { bodies ≡ length (entries_bytes m.now.bodies) }
    requires code { All (λ (b : Body). FitsCode b.code) m.now.bodies }
    requires locals { All (λ (b : Body). locals_of b.groups < 2 ^ 32) m.now.bodies }
    requires counts { length m.now.funcs ≡ length m.now.bodies }
    requires room { length (module_bytes m.now) < 2 ^ 63 }
    ensures length { result ≡ length (module_bytes m.now) }
    ensures fit { length (module_bytes m.now) < 2 ^ 32 → Fits m.now }
{
    8 + section_length(1, m.types.as_slice())
        + section_length(2, m.imports.as_slice())
        + section_length(3, m.funcs.as_slice())
        + table_section_length(m.tables.as_slice())
        + section_length(5, m.memories.as_slice())
        + section_length(6, m.globals.as_slice())
        + section_length(7, m.exports.as_slice())
        + start_length(m.start)
        + section_length(9, m.elements.as_slice())
        + bodies_section_length(m.bodies.as_slice(), bodies)
        + section_length(11, m.segments.as_slice())
}

// The module without its bodies and custom sections.
fn outline_of(m: &Module) -> Outline<'_>
    ensures { result ≡ record m.now { bodies = []; customs = [] } }
{
    Outline {
        types: m.types.as_slice(),
        more_types: &[],
        imports: m.imports.as_slice(),
        more_imports: &[],
        funcs: m.funcs.as_slice(),
        tables: m.tables.as_slice(),
        memories: m.memories.as_slice(),
        globals: m.globals.as_slice(),
        exports: m.exports.as_slice(),
        start: m.start,
        elements: m.elements.as_slice(),
        segments: m.segments.as_slice(),
    }
}

/// The canonical bytes of a module, if the entries of its bodies have `bodies` bytes. There is room for `capacity`
/// bytes from the start.
pub fn spell_module(
    alloc: Global,
    m: &Module,
    capacity: u64,
    bodies: u64,
) -> Result<Vec<u8>, AllocError>
    requires bodies { bodies ≡ length (entries_bytes m.now.bodies) }
    requires room { length (module_bytes m.now) < 2 ^ 63 }
    ensures { IfOk result (λ bytes. bytes.items ≡ module_bytes m.now) }
{
    let mut out = Vec::with_capacity(alloc, capacity as usize)?;
    let outline = outline_of(m);
    outline.put_front(alloc, &mut out)?;
    put_bodies_section(alloc, &mut out, m.bodies.as_slice(), bodies)?;
    outline.put_back(&mut out)?;
    Ok(out)
}
