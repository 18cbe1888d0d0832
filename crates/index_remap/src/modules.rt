// Copies of modules in which references name functions of the output.

ghost use Rattle.std.specs.Prelude.{◌≡◌, All, IfOk, map, option_map};
ghost use Rattle.std.specs.Option.{ForSome};
ghost use Rattle.module_ast.specs.declared.module.Element.{Element};
ghost use Rattle.module_ast.specs.declared.module.Export.{Export};
ghost use Rattle.index_remap.specs.Remap.{map_index, map_reference, map_export, map_element, map_module, MapsIndex, MapsReference, MapsModule};

use crate::Remap;
use crate::copies::{DeepCopy, copy_list, copy_parts};
use module_ast::module::{
    Element, Export, ExportKind, FuncType, GlobalDef, Import, Module, Range, Segment,
};
use module_ast::name::Name;
use module_ast::seq::Seq;
use std::alloc::{AllocError, Global};

impl Remap {
    fn map_reference(&self, kind: ExportKind, index: u32) -> u32
        requires { MapsReference self.now kind index }
        ensures { result ≡ map_reference self.now kind index }
    {
        match kind {
            ExportKind::Func => self.map(index),
            ExportKind::Table => index,
            ExportKind::Memory => index,
            ExportKind::Global => index,
        }
    }

    fn map_export(&self, alloc: Global, export: &Export) -> Result<Export, AllocError>
        requires { MapsReference self.now export.now.kind export.now.index }
        ensures { IfOk result (λ copy. copy ≡ map_export self.now export.now) }
    {
        let name = export.name.copy(alloc)?;
        let kind = export.kind;
        let index = self.map_reference(kind, export.index);
        Ok(Export { name, kind, index })
    }

    /// Copies of these exports, in which those of functions name functions of the output. An `AllocError` if memory
    /// runs out. (Standard, 2.5.10)
    pub fn map_exports(&self, alloc: Global, exports: &[Export]) -> Result<Seq<Export>, AllocError>
        requires { All (λ (e : Export). MapsReference self.now e.kind e.index) exports.now }
        ensures { IfOk result (λ copies. copies ≡ map (map_export self.now) exports.now) }
    {
        let mut copies = Vec::with_capacity(alloc, exports.len())?;
        for export in exports {
            copies.push(self.map_export(alloc, export)?)?;
        }
        Ok(Seq::from_vec(copies))
    }

    /// The index of the start function in the output, if there is a start function. (Standard, 2.5.9)
    pub fn map_start(&self, start: Option<u32>) -> Option<u32>
        requires { ForSome start (MapsIndex self.now) }
        ensures { result ≡ option_map (map_index self.now) start }
    {
        match start {
            None => None,
            Some(func) => Some(self.map(func)),
        }
    }

    fn map_funcs(&self, alloc: Global, funcs: &[u32]) -> Result<Seq<u32>, AllocError>
        requires { All (MapsIndex self.now) funcs.now }
        ensures { IfOk result (λ copies. copies ≡ map (map_index self.now) funcs.now) }
    {
        let mut copies = Vec::with_capacity(alloc, funcs.len())?;
        for func in funcs {
            copies.push(self.map(*func))?;
        }
        Ok(Seq::from_vec(copies))
    }

    fn map_element(&self, alloc: Global, element: &Element) -> Result<Element, AllocError>
        requires { All (MapsIndex self.now) element.now.funcs }
        ensures { IfOk result (λ copy. copy ≡ map_element self.now element.now) }
    {
        let offset = element.offset.copy(alloc)?;
        let funcs = self.map_funcs(alloc, element.funcs.as_slice())?;
        Ok(Element {
            table: element.table,
            offset,
            funcs,
        })
    }

    /// Copies of these element segments, which name functions of the output. An `AllocError` if memory runs out.
    /// (Standard, 2.5.7)
    pub fn map_elements(
        &self,
        alloc: Global,
        elements: &[Element],
    ) -> Result<Seq<Element>, AllocError>
        requires { All (λ (e : Element). All (MapsIndex self.now) e.funcs) elements.now }
        ensures { IfOk result (λ copies. copies ≡ map (map_element self.now) elements.now) }
    {
        let mut copies = Vec::with_capacity(alloc, elements.len())?;
        for element in elements {
            copies.push(self.map_element(alloc, element)?)?;
        }
        Ok(Seq::from_vec(copies))
    }

    /// A copy of the module without its bodies, in which exports, element segments and the start section name functions
    /// of the output. Nothing else changes. An `AllocError` if memory runs out.
    pub fn map_module(&self, alloc: Global, m: &Module) -> Result<Module, AllocError>
        requires { MapsModule self.now m.now }
        ensures { IfOk result (λ copy. copy ≡ map_module self.now m.now) }
    {
        let declared = copy_declared(alloc, m)?;
        let filled = self.map_filled(alloc, m)?;
        Ok(Module {
            types: declared.types,
            imports: declared.imports,
            funcs: declared.funcs,
            tables: declared.tables,
            memories: declared.memories,
            globals: declared.globals,
            exports: filled.exports,
            start: self.map_start(m.start),
            elements: filled.elements,
            bodies: Seq::from_vec(Vec::new(alloc)),
            segments: filled.segments,
            customs: filled.customs,
        })
    }

    // Copies of exports, element segments, data segments and names of custom sections.
    fn map_filled(&self, alloc: Global, m: &Module) -> Result<Filled, AllocError>
        requires { MapsModule self.now m.now }
        ensures exports { IfOk result (λ parts. parts.exports ≡ map (map_export self.now) m.now.exports) }
        ensures elements { IfOk result (λ parts. parts.elements ≡ map (map_element self.now) m.now.elements) }
        ensures segments { IfOk result (λ parts. parts.segments ≡ m.now.segments) }
        ensures customs { IfOk result (λ parts. parts.customs ≡ m.now.customs) }
    {
        Ok(Filled {
            exports: self.map_exports(alloc, m.exports.as_slice())?,
            elements: self.map_elements(alloc, m.elements.as_slice())?,
            segments: copy_parts(alloc, &m.segments)?,
            customs: copy_parts(alloc, &m.customs)?,
        })
    }
}

// The parts of a module that declare what there is.
#[derive(Drop)]
struct Declared {
    types: Seq<FuncType>,
    imports: Seq<Import>,
    funcs: Seq<u32>,
    tables: Seq<Range>,
    memories: Seq<Range>,
    globals: Seq<GlobalDef>,
}

// The parts of a module that name what there is, or fill it.
#[derive(Drop)]
struct Filled {
    exports: Seq<Export>,
    elements: Seq<Element>,
    segments: Seq<Segment>,
    customs: Seq<Name>,
}

fn copy_declared(alloc: Global, m: &Module) -> Result<Declared, AllocError>
    ensures types { IfOk result (λ parts. parts.types ≡ m.now.types) }
    ensures imports { IfOk result (λ parts. parts.imports ≡ m.now.imports) }
    ensures funcs { IfOk result (λ parts. parts.funcs ≡ m.now.funcs) }
    ensures tables { IfOk result (λ parts. parts.tables ≡ m.now.tables) }
    ensures memories { IfOk result (λ parts. parts.memories ≡ m.now.memories) }
    ensures globals { IfOk result (λ parts. parts.globals ≡ m.now.globals) }
{
    Ok(Declared {
        types: copy_parts(alloc, &m.types)?,
        imports: copy_parts(alloc, &m.imports)?,
        funcs: copy_list(alloc, &m.funcs)?,
        tables: copy_list(alloc, &m.tables)?,
        memories: copy_list(alloc, &m.memories)?,
        globals: copy_parts(alloc, &m.globals)?,
    })
}
