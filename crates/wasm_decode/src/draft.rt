// What was read of a module so far.

ghost use Rattle.std.specs.Prelude.{◌≡◌, ℕ};
ghost use Rattle.module_ast.specs.Binary.{empty_module};
ghost use Rattle.wasm_decode.specs.Drafts.{IsDraft};

use crate::part::Part;
use module_ast::module::{Body, Element, Export, FuncType, GlobalDef, Import, Range, Segment};
use module_ast::name::Name;
use std::alloc::Global;

/// What the sections that were read have. A section that is absent counts as empty.
#[derive(Drop)]
pub struct Draft {
    pub types: Part<FuncType>,
    pub imports: Part<Import>,
    pub funcs: Part<u32>,
    pub tables: Part<Range>,
    pub memories: Part<Range>,
    pub globals: Part<GlobalDef>,
    pub exports: Part<Export>,
    pub start: Option<u32>,
    pub elements: Part<Element>,
    pub bodies: Part<Body>,
    pub segments: Part<Segment>,
    pub customs: Vec<Name>,
}

impl Draft {
    /// A draft before the first section.
    pub fn new(alloc: Global) -> Draft
        ensures { (bound : ℕ) → IsDraft bound result empty_module }
    {
        Draft {
            types: Part::new(alloc, 0),
            imports: Part::new(alloc, 0),
            funcs: Part::new(alloc, 0),
            tables: Part::new(alloc, 0),
            memories: Part::new(alloc, 0),
            globals: Part::new(alloc, 0),
            exports: Part::new(alloc, 0),
            start: None,
            elements: Part::new(alloc, 0),
            bodies: Part::new(alloc, 0),
            segments: Part::new(alloc, 0),
            customs: Vec::new(alloc),
        }
    }
}
