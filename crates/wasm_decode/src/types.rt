// Types, as the sections of a module have them.

ghost use Rattle.std.specs.Prelude.{◌≡◌, ℕ, true, MatchOption, IfOk, OnErr, IsErrOf};
ghost use Rattle.leb_binary.specs.Leb.{IsFront, HasNoFront};
ghost use Rattle.module_ast.specs.Binary.Grammar as grammar;
ghost use Rattle.module_ast.specs.Binary.{IsU32, IsFuncType, IsMemoryType, IsTableType, IsMutability, IsGlobalType, is_floating, global_type_node};
ghost use Rattle.module_ast.specs.declared.module.Range.{Range};
ghost use Rattle.wasm_decode.specs.Kinds.{index_form, range_form, func_type_form};
ghost use Rattle.code_decode.proofs.Items.{one_u32, one_func_type, one_memory_type, one_table_type};

use crate::part::{Entry, Piece};
use code_decode::{Fault, read_func_type, val_type};
use leb_binary::{Bad, Cursor};
use module_ast::module::{FuncType, GlobalType, Range};
use std::alloc::Global;

/// The entries of the function section (5.5.6): indices of types (5.5.1).
pub struct Indices;

impl Entry for Indices {
    type Value = u32;

    ghost Shape = { ℕ };

    ghost is = { IsU32 };

    ghost form = { index_form };

    fn read(_alloc: Global, cursor: &mut Cursor, _nesting: u32) -> Result<Piece<u32>, Fault> {
        let index = cursor.read_u32()?;
        Ok(Piece::Whole(index))
    }

    ghost one = { one_u32 };
}

/// The entries of the type section: function types (5.3.3).
pub struct FuncTypes;

impl Entry for FuncTypes {
    type Value = FuncType;

    ghost Shape = { grammar.FuncTypeNode };

    ghost is = { IsFuncType };

    ghost form = { func_type_form };

    fn read(alloc: Global, cursor: &mut Cursor, _nesting: u32) -> Result<Piece<FuncType>, Fault> {
        match read_func_type(alloc, cursor)? {
            Some(ty) => Ok(Piece::Whole(ty)),
            None => Ok(Piece::Floats),
        }
    }

    ghost one = { one_func_type };
}

/// Takes limits: a minimum, and a maximum if there is one (5.3.4). After an `Err` the cursor may be anywhere.
pub fn limits(cursor: &mut Cursor) -> Result<Range, Bad>
    ensures ok { IfOk result (λ r. IsFront IsMemoryType cursor.old.left cursor.new.left r) }
    ensures bad { OnErr result (HasNoFront IsMemoryType cursor.old.left) }
{
    let byte = cursor.byte()?;
    match byte {
        0x00 => {
            let min = cursor.read_u32()?;
            Ok(Range { min, max: None })
        }
        0x01 => {
            let min = cursor.read_u32()?;
            let max = cursor.read_u32()?;
            Ok(Range {
                min,
                max: Some(max),
            })
        }
        _ => Err(Bad),
    }
}

/// Takes a table type (5.3.6). After an `Err` the cursor may be anywhere.
pub fn table_type(cursor: &mut Cursor) -> Result<Range, Bad>
    ensures ok { IfOk result (λ r. IsFront IsTableType cursor.old.left cursor.new.left r) }
    ensures bad { OnErr result (HasNoFront IsTableType cursor.old.left) }
{
    let byte = cursor.byte()?;
    if byte != 0x70 {
        return Err(Bad);
    }
    let range = limits(cursor)?;
    Ok(range)
}

/// The entries of the memory section: memory types (5.3.5).
pub struct Memories;

impl Entry for Memories {
    type Value = Range;

    ghost Shape = { Range };

    ghost is = { IsMemoryType };

    ghost form = { range_form };

    fn read(_alloc: Global, cursor: &mut Cursor, _nesting: u32) -> Result<Piece<Range>, Fault> {
        let range = limits(cursor)?;
        Ok(Piece::Whole(range))
    }

    ghost one = { one_memory_type };
}

/// The entries of the table section: table types (5.3.6).
pub struct Tables;

impl Entry for Tables {
    type Value = Range;

    ghost Shape = { Range };

    ghost is = { IsTableType };

    ghost form = { range_form };

    fn read(_alloc: Global, cursor: &mut Cursor, _nesting: u32) -> Result<Piece<Range>, Fault> {
        let range = table_type(cursor)?;
        Ok(Piece::Whole(range))
    }

    ghost one = { one_table_type };
}

// Takes a byte that says whether code may change a global (5.3.7).
fn mutability(cursor: &mut Cursor) -> Result<bool, Bad>
    ensures ok { IfOk result (λ b. IsFront IsMutability cursor.old.left cursor.new.left b) }
    ensures bad { OnErr result (HasNoFront IsMutability cursor.old.left) }
{
    let byte = cursor.byte()?;
    match byte {
        0x00 => Ok(false),
        0x01 => Ok(true),
        _ => Err(Bad),
    }
}

/// Takes the type of a global (5.3.7); `None` if its value type is floating-point. After an `Err` the cursor may be
/// anywhere.
pub fn global_type(cursor: &mut Cursor) -> Result<Option<GlobalType>, Bad>
    ensures ok { IfOk result (λ o. (g : grammar.GlobalTypeNode) × IsFront IsGlobalType cursor.old.left cursor.new.left g × MatchOption o (is_floating g.ty ≡ true) (λ t. g ≡ global_type_node t)) }
    ensures bad { OnErr result (HasNoFront IsGlobalType cursor.old.left) }
{
    let ty = val_type(cursor)?;
    let mutable = mutability(cursor)?;
    match ty {
        Some(ty) => Ok(Some(GlobalType { ty, mutable })),
        None => Ok(None),
    }
}
