// The blocks of a module by the places where they begin.

ghost use Rattle.std.specs.Prelude.{◌≡◌, ◌++◌, ◌∷◌, [], None, Some, IfOk, OnOk, length, map};
ghost use Rattle.wasm_sem.specs.Types.{Module as valid_module, FuncType as func_type};
ghost use Rattle.module_ast.specs.Structure.{before, Tree};
ghost use Rattle.module_ast.specs.Validation.{block_type};
ghost use Rattle.run_store.specs.Resolved.{callee_for};
ghost use Rattle.shadow_replay.specs.BlockRows.{code_row, callee_row, block_rows, row_block};
ghost use Rattle.shadow_replay.specs.Blocks.{of_kind, block_at, label_arity};

use module_ast::code::{BlockType, Code, Instr};
use module_ast::module::{Loc, Module};
use run_store::{Function, block_counts};
use std::alloc::Global;
use std::marker::Model;
use std::mem::size_of;
use wasm_num::{BlockKind, NoMemory, ValType};

/// A block, a loop or a branch of an `if`: its kind, and its block type as the module has it.
#[derive(Clone, Copy)]
pub struct Block {
    pub kind: BlockKind,
    pub ty: BlockType,
}

/// How many values a block takes, and how many a branch to its label takes. (Standard, 4.4.6)
#[derive(Clone, Copy)]
pub(crate) struct Counts {
    pub starts: usize,
    pub arity: usize,
}

// The counts of a block of this kind that takes `starts` values and leaves `results`.
fn counts_for(kind: BlockKind, starts: usize, results: usize) -> Counts
    ensures { (t : func_type) → starts ≡ length t.params → results ≡ length t.results → result ≡ record { starts = length t.params; arity = label_arity kind t } }
{
    let arity = match kind {
        BlockKind::Loop => starts,
        BlockKind::Function | BlockKind::Block | BlockKind::If | BlockKind::Else => results,
    };
    Counts { starts, arity }
}

impl Block {
    /// The counts of the block in `module`, which has its type.
    pub fn counts(&self, module: &Module) -> Counts
        requires { (t : func_type) × (block_type «module».now.types self.now.ty ≡ Some t) }
        ensures { (t : func_type) → block_type «module».now.types self.now.ty ≡ Some t → result ≡ record { starts = length t.params; arity = label_arity self.now.kind t } }
    {
        let counts = block_counts(module, self.ty);
        counts_for(self.kind, counts.starts, counts.results)
    }
}

/// What begins at a position. `Written` has a type that is written out, `Indexed` the index of a type: apart, so that
/// each takes eight bytes.
#[derive(Clone, Copy)]
pub(crate) enum Begun {
    Nothing,
    Written(BlockKind, Option<ValType>),
    Indexed(BlockKind, u32),
}

/// A position of a function. Contracts see the block that begins there, if one does.
#[derive(Drop)]
pub(crate) struct Place {
    begun: Begun,
}

impl Model for Place {
    ghost use Rattle.std.specs.Prelude.{Option};
    ghost use Rattle.shadow_replay.specs.declared.blocks.Block.{Block as block_there};
    ghost use Rattle.shadow_replay.specs.BlockRows.{begun_block};

    ghost Value = { Option block_there };

    ghost view = { λ a. begun_block a.begun };
}

// There is a place for each position of the module.
const _: () = prove!(size_of::<Place>() <= 8);

impl Place {
    // A position at which no block begins.
    fn none() -> Place
        ensures { result ≡ None }
    {
        Place {
            begun: Begun::Nothing,
        }
    }

    // A position at which a block of this kind and type begins.
    fn new(kind: BlockKind, ty: BlockType) -> Place
        ensures { result ≡ of_kind kind ty }
    {
        let begun = match ty {
            BlockType::Empty => Begun::Written(kind, None),
            BlockType::Value(ty) => Begun::Written(kind, Some(ty)),
            BlockType::Indexed(index) => Begun::Indexed(kind, index),
        };
        Place { begun }
    }

    // The block that begins at the position, if one does.
    fn block(&self) -> Option<Block>
        ensures { result ≡ self.now }
    {
        match self.begun {
            Begun::Nothing => None,
            Begun::Written(kind, None) => Some(Block {
                kind,
                ty: BlockType::Empty,
            }),
            Begun::Written(kind, Some(ty)) => Some(Block {
                kind,
                ty: BlockType::Value(ty),
            }),
            Begun::Indexed(kind, index) => Some(Block {
                kind,
                ty: BlockType::Indexed(index),
            }),
        }
    }
}

// Appends a position at which no block begins.
fn note_none(row: &mut Vec<Place>) -> Result<(), NoMemory>
    ensures { OnOk result (row.new.items ≡ row.old.items ++ None ∷ []) }
{
    row.push(Place::none())?;
    Ok(())
}

// Appends the position at which a block, a loop or a branch of an `if` begins, and the positions inside.
#[cycle(rows)]
fn note_part(
    row: &mut Vec<Place>,
    kind: BlockKind,
    ty: BlockType,
    body: &Code,
) -> Result<(), NoMemory>
    ensures { OnOk result (row.new.items ≡ row.old.items ++ of_kind kind ty ∷ code_row body.now) }
{
    row.push(Place::new(kind, ty))?;
    note_code(row, body)
}

// Appends the positions of a block, a loop, or an `if` without `else`, and that of its end.
#[cycle(rows)]
fn note_block(
    row: &mut Vec<Place>,
    kind: BlockKind,
    ty: BlockType,
    body: &Code,
) -> Result<(), NoMemory>
    ensures { OnOk result (row.new.items ≡ row.old.items ++ of_kind kind ty ∷ (code_row body.now ++ None ∷ [])) }
{
    note_part(row, kind, ty, body)?;
    note_none(row)
}

// Appends the positions of an instruction.
#[cycle(rows)]
fn note_instr(row: &mut Vec<Place>, instr: &Instr) -> Result<(), NoMemory>
    ensures { OnOk result ((t : Tree) → row.new.items ++ code_row t ≡ row.old.items ++ code_row (before instr.now t)) }
{
    match instr {
        Instr::Block(ty, body) => note_block(row, BlockKind::Block, *ty, body),
        Instr::Loop(ty, body) => note_block(row, BlockKind::Loop, *ty, body),
        Instr::If(ty, body) => note_block(row, BlockKind::If, *ty, body),
        Instr::IfElse(ty, body, other) => {
            note_part(row, BlockKind::If, *ty, body)?;
            note_block(row, BlockKind::Else, *ty, other)
        }
        _ => note_none(row),
    }
}

// Appends the positions of code.
#[cycle(rows)]
fn note_code(row: &mut Vec<Place>, code: &Code) -> Result<(), NoMemory>
    ensures { OnOk result (row.new.items ≡ row.old.items ++ code_row code.now) }
{
    for instr in code.as_slice() {
        note_instr(row, instr)?;
    }
    Ok(())
}

// The block that begins at each position of a function, which contracts see as a list.
#[derive(Drop)]
struct Row {
    places: Vec<Place>,
}

impl Model for Row {
    ghost use Rattle.std.specs.Prelude.{List, Option};
    ghost use Rattle.shadow_replay.specs.declared.blocks.Block.{Block as begun};

    ghost Value = { List (Option begun) };

    ghost view = { λ a. a.places.items };
}

impl Row {
    // The block that begins at a position; `None` at the function's entry.
    fn at(&self, position: i32) -> Option<Block>
        ensures { result ≡ row_block self.now position }
    {
        let Ok(place) = usize::try_from(position) else {
            return None;
        };
        match self.places.as_slice().get(place) {
            Some(place) => place.block(),
            None => None,
        }
    }
}

// The row of a function; empty if the module does not define the function.
fn row_of(alloc: Global, function: &Function) -> Result<Row, NoMemory>
    ensures { IfOk result (λ r. r ≡ callee_row (callee_for function.now)) }
{
    let mut places = Vec::new(alloc);
    if let Function::Own(_, body, _) = function {
        note_code(&mut places, &body.code)?;
    }
    Ok(Row { places })
}

/// Which block begins at each place of a module. Contracts see a row for each function. Takes memory in proportion to
/// the code.
pub(crate) struct Blocks {
    rows: Vec<Row>,
}

// Dropped by hand: each early return past a value of this type then costs one proof step instead of one per field.
impl Drop for Blocks {
    fn drop(self) {
        let Blocks { rows: _rows } = self;
    }
}

impl Model for Blocks {
    ghost use Rattle.std.specs.Prelude.{List, Option};
    ghost use Rattle.shadow_replay.specs.declared.blocks.Block.{Block as begun};

    ghost Value = { List (List (Option begun)) };

    ghost view = { λ a. a.rows.items };
}

impl Blocks {
    /// The blocks of these functions, from one pass over their code. `NoMemory` if memory runs out.
    pub fn new(alloc: Global, functions: &[Function]) -> Result<Blocks, NoMemory>
        ensures { IfOk result (λ b. b ≡ map callee_row (map callee_for functions.now)) }
    {
        let mut rows = Vec::new(alloc);
        for function in functions {
            rows.push(row_of(alloc, function)?)?;
        }
        Ok(Blocks { rows })
    }

    /// The block that begins at a place of the module, if one does. Takes constant time.
    pub fn at(&self, loc: Loc) -> Option<Block>
        ensures { (m : valid_module) → self.now ≡ block_rows m → result ≡ block_at m loc }
    {
        match self.rows.as_slice().get(loc.func as usize) {
            Some(row) => row.at(loc.instr),
            None => None,
        }
    }
}
