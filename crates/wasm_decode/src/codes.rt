// Entries with expressions: globals, element segments and data segments.

ghost use Rattle.std.specs.Prelude.{◌≡◌, ℕ, true, MatchOption, IfOk, IsErrOf};
ghost use Rattle.leb_binary.specs.Leb.{IsFront, HasNoFront};
ghost use Rattle.module_ast.specs.Binary.Grammar as grammar;
ghost use Rattle.leb_binary.specs.Reading.{IsByte};
ghost use Rattle.module_ast.specs.Binary.{AreItems, IsVec, IsGlobal, IsElement, IsSegment, is_floating};
ghost use Rattle.module_ast.specs.Binary.Profile as profile;
ghost use Rattle.wasm_decode.specs.Built.{IsBuilt};
ghost use Rattle.wasm_decode.specs.Kinds.{global_form, element_form, segment_form};
ghost use Rattle.wasm_decode.specs.Parts.{IsPiece};
ghost use Rattle.wasm_decode.specs.Makes.{global_by, element_by, segment_by};
ghost use Rattle.code_decode.proofs.Items.{one_global, one_element, one_segment};

use crate::part::{Entry, Piece};
use crate::types::global_type;
use code_decode::{Expr, Fault, read_expr, read_indices};
use leb_binary::Cursor;
use module_ast::code::Code;
use module_ast::module::{Element, GlobalDef, GlobalType, Segment};
use module_ast::seq::Seq;
use std::alloc::{AllocError, Global};

// A global, from its type and its expression as they were read.
fn global(alloc: Global, ty: Option<GlobalType>, init: Expr) -> Result<Piece<GlobalDef>, AllocError>
    ensures { (bound : ℕ) (g : grammar.GlobalTypeNode) (t : grammar.CodeNode) → MatchOption ty (is_floating g.ty ≡ true) (λ x. g ≡ profile.global_type_node x) → IsBuilt bound init t → IfOk result (λ p. IsPiece global_form bound p (global_by g t)) }
{
    let Some(ty) = ty else {
        return Ok(Piece::Floats);
    };
    match init {
        Expr::Built(init) => Ok(Piece::Whole(GlobalDef { ty, init })),
        Expr::Floats => Ok(Piece::Floats),
        Expr::Deep { found } => {
            let init = Code::new(alloc)?;
            Ok(Piece::Deep(GlobalDef { ty, init }, found))
        }
    }
}

/// The entries of the global section (5.5.9).
pub struct Globals;

impl Entry for Globals {
    type Value = GlobalDef;

    ghost Shape = { grammar.GlobalNode };

    ghost is = { IsGlobal };

    ghost form = { global_form };

    fn read(alloc: Global, cursor: &mut Cursor, nesting: u32) -> Result<Piece<GlobalDef>, Fault> {
        let ty = global_type(cursor)?;
        let init = read_expr(alloc, cursor, nesting)?;
        let global = global(alloc, ty, init)?;
        Ok(global)
    }

    ghost one = { one_global };
}

// An element segment, from its parts as they were read.
fn element(
    alloc: Global,
    table: u32,
    offset: Expr,
    funcs: Seq<u32>,
) -> Result<Piece<Element>, AllocError>
    ensures { (bound : ℕ) (t : grammar.CodeNode) → IsBuilt bound offset t → IfOk result (λ p. IsPiece element_form bound p (element_by table t funcs)) }
{
    match offset {
        Expr::Built(offset) => Ok(Piece::Whole(Element {
            table,
            offset,
            funcs,
        })),
        Expr::Floats => Ok(Piece::Floats),
        Expr::Deep { found } => {
            let offset = Code::new(alloc)?;
            Ok(Piece::Deep(
                Element {
                    table,
                    offset,
                    funcs,
                },
                found,
            ))
        }
    }
}

/// The entries of the element section (5.5.12).
pub struct Elements;

impl Entry for Elements {
    type Value = Element;

    ghost Shape = { grammar.ElementNode };

    ghost is = { IsElement };

    ghost form = { element_form };

    fn read(alloc: Global, cursor: &mut Cursor, nesting: u32) -> Result<Piece<Element>, Fault> {
        let table = cursor.read_u32()?;
        let offset = read_expr(alloc, cursor, nesting)?;
        let funcs = read_indices(alloc, cursor)?;
        let funcs = Seq::from_vec(funcs);
        let element = element(alloc, table, offset, funcs)?;
        Ok(element)
    }

    ghost one = { one_element };
}

fn copied(alloc: Global, bytes: &[u8]) -> Result<Vec<u8>, AllocError>
    ensures ok { IfOk result (λ v. (v.items ≡ bytes.now) × AreItems IsByte bytes.now bytes.now) }
{
    let copied = bytes.to_vec(alloc)?;
    Ok(copied)
}

// Takes a vector of bytes, copied.
fn byte_vec(alloc: Global, cursor: &mut Cursor) -> Result<Vec<u8>, Fault>
    ensures ok { IfOk result (λ v. IsFront (IsVec IsByte) cursor.old.left cursor.new.left v.items) }
    ensures malformed { IsErrOf result Fault.Malformed → HasNoFront (IsVec IsByte) cursor.old.left }
{
    let count = cursor.read_u32()?;
    let taken = cursor.take(count)?;
    let bytes = copied(alloc, taken)?;
    Ok(bytes)
}

// A data segment, from its parts as they were read.
fn segment(
    alloc: Global,
    memory: u32,
    offset: Expr,
    bytes: Seq<u8>,
) -> Result<Piece<Segment>, AllocError>
    ensures { (bound : ℕ) (t : grammar.CodeNode) → IsBuilt bound offset t → IfOk result (λ p. IsPiece segment_form bound p (segment_by memory t bytes)) }
{
    match offset {
        Expr::Built(offset) => Ok(Piece::Whole(Segment {
            memory,
            offset,
            bytes,
        })),
        Expr::Floats => Ok(Piece::Floats),
        Expr::Deep { found } => {
            let offset = Code::new(alloc)?;
            Ok(Piece::Deep(
                Segment {
                    memory,
                    offset,
                    bytes,
                },
                found,
            ))
        }
    }
}

/// The entries of the data section (5.5.14).
pub struct Segments;

impl Entry for Segments {
    type Value = Segment;

    ghost Shape = { grammar.SegmentNode };

    ghost is = { IsSegment };

    ghost form = { segment_form };

    fn read(alloc: Global, cursor: &mut Cursor, nesting: u32) -> Result<Piece<Segment>, Fault> {
        let memory = cursor.read_u32()?;
        let offset = read_expr(alloc, cursor, nesting)?;
        let bytes = byte_vec(alloc, cursor)?;
        let bytes = Seq::from_vec(bytes);
        let segment = segment(alloc, memory, offset, bytes)?;
        Ok(segment)
    }

    ghost one = { one_segment };
}
