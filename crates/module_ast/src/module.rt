// Modules and their parts.

ghost use Rattle.std.specs.Prelude.{◌≡◌};

use crate::code::Code;
use crate::name::Name;
use crate::seq::Seq;
use wasm_num::ValType;

/// The types of the parameters and of the results of a function. (Standard, 2.3.3)
#[derive(Drop)]
pub struct FuncType {
    pub params: Seq<ValType>,
    pub results: Seq<ValType>,
}

/// The least and the greatest size of a table, in slots, or of a memory, in pages of 65,536 bytes. (Standard, 2.3.4)
#[derive(Clone, Copy)]
pub struct Range {
    pub min: u32,
    pub max: Option<u32>,
}

/// The type of a global, and whether code may change the global. (Standard, 2.3.7)
#[derive(Clone, Copy)]
pub struct GlobalType {
    pub ty: ValType,
    pub mutable: bool,
}

/// What is imported: a function by the index of its type, a table, a memory or a global. (Standard, 2.5.11)
#[derive(Clone, Copy)]
pub enum Item {
    Func(u32),
    Table(Range),
    Memory(Range),
    Global(GlobalType),
}

#[derive(Drop)]
/// An import: the two names under which the host supplies an item, and the item. (Standard, 2.5.11)
pub struct Import {
    pub module: Name,
    pub name: Name,
    pub item: Item,
}

/// A global that the module defines: its type, and the constant expression of its first value. (Standard, 2.5.6)
#[derive(Drop)]
pub struct GlobalDef {
    pub ty: GlobalType,
    pub init: Code,
}

#[derive(Clone, Copy, PartialEq, Eq)]
/// Which index space an export's index belongs to. (Standard, 2.5.10)
pub enum ExportKind {
    Func,
    Table,
    Memory,
    Global,
}

/// An export: a name, and the index of what it names in the index space of its kind. (Standard, 2.5.10)
#[derive(Drop)]
pub struct Export {
    pub name: Name,
    pub kind: ExportKind,
    pub index: u32,
}

/// Indices of functions that fill the slots of a table from an offset on. (Standard, 2.5.7)
#[derive(Drop)]
pub struct Element {
    pub table: u32,
    pub offset: Code,
    pub funcs: Seq<u32>,
}

/// Bytes that fill a memory from an offset on. (Standard, 2.5.8)
#[derive(Drop)]
pub struct Segment {
    pub memory: u32,
    pub offset: Code,
    pub bytes: Seq<u8>,
}

/// `count` locals of one type, as a body lists them. (Standard, 5.5.13)
#[derive(Clone, Copy, PartialEq, Eq)]
pub struct Group {
    pub count: u32,
    pub ty: ValType,
}

/// The body of a function: the groups of its locals, and its code without the closing `end`. (Standard, 2.5.3)
#[derive(Drop)]
pub struct Body {
    pub groups: Seq<Group>,
    pub code: Code,
}

/// A module. `funcs` has the type index of each function that the module defines, and `bodies` has their bodies in the
/// same order. `customs` are the names of the custom sections, in the order of the file. (Standard, 2.5)
#[derive(Drop)]
pub struct Module {
    pub types: Seq<FuncType>,
    pub imports: Seq<Import>,
    pub funcs: Seq<u32>,
    pub tables: Seq<Range>,
    pub memories: Seq<Range>,
    pub globals: Seq<GlobalDef>,
    pub exports: Seq<Export>,
    pub start: Option<u32>,
    pub elements: Seq<Element>,
    pub bodies: Seq<Body>,
    pub segments: Seq<Segment>,
    pub customs: Seq<Name>,
}

impl Module {
    ghost use Rattle.std.specs.Prelude.{slice_get, MatchOption, None, Some};
    ghost use Rattle.module_ast.specs.Structure.Spaces.{funcs_of};
    ghost use Rattle.module_ast.specs.Validation.Validity.{func_type};

    // The index of the type of a function; imported functions are counted first.
    fn type_index(&self, func: u32) -> Option<u32>
        ensures { result ≡ slice_get (funcs_of self.now) func }
    {
        let mut left = func;
        for import in self.imports.as_slice() {
            if let Item::Func(ty) = import.item {
                if left == 0 {
                    return Some(ty);
                }
                left -= 1;
            }
        }
        self.funcs.as_slice().get(left as usize).copied()
    }

    /// The type of a function by its index; imported functions are counted first. `None` if there is no such function,
    /// or if the index of its type names no type. Walks the imports: for many look-ups use `Spaces::func_type`, which
    /// gives the same answer in constant time. (Standard, 2.5.1)
    pub fn func_type(&self, func: u32) -> Option<&FuncType>
        ensures { MatchOption result (func_type self.now func ≡ None) (λ t. func_type self.now func ≡ Some t.now) }
    {
        let ty = self.type_index(func)?;
        self.types.as_slice().get(ty as usize)
    }
}

/// A place in the original module: a function, imports counted first, and a position, which is -1 where the function
/// begins.
#[derive(Clone, Copy, Debug, PartialEq, Eq)]
pub struct Loc {
    pub func: u32,
    pub instr: i32,
}

/// The greatest number of bytes of a module that is checked or run, of an output, and of a file of information or of a
/// trace.
pub const LONGEST_FILE: u64 = 268_435_456;

/// The greatest number of bytes of a module that gets hooks, and of a script.
pub const LONGEST_NARROW_FILE: u64 = 16_777_216;

/// The greatest number of blocks around an instruction of a module that is checked or run.
pub const DEEPEST: u32 = 1_002;

/// The greatest number that a module may have of each counted quantity. `parameters` bounds the results of a function
/// too, and `locals` bounds the locals that one body declares.
#[derive(Clone, Copy)]
pub struct Limits {
    pub functions: u32,
    pub types: u32,
    pub parameters: u32,
    pub locals: u32,
    pub nesting: u32,
}

impl Limits {
    ghost use Rattle.module_ast.specs.Validation.Limits.{narrow, wide};

    /// The limits of a module that gets hooks.
    pub const fn narrow() -> Limits
        ensures { result ≡ narrow }
    {
        Limits {
            functions: 100_000,
            types: 100_000,
            parameters: 400,
            locals: 50_000,
            nesting: 1_000,
        }
    }

    /// The limits of a module that has hooks, or that is checked or run.
    pub const fn wide() -> Limits
        ensures { result ≡ wide }
    {
        Limits {
            functions: 600_000,
            types: 600_000,
            parameters: 900,
            locals: 60_000,
            nesting: DEEPEST,
        }
    }
}

/// The counted quantities, in the order in which their limits are checked.
#[derive(Clone, Copy, Debug, PartialEq, Eq)]
pub enum Which {
    Functions,
    Types,
    Parameters,
    Locals,
    Nesting,
}
