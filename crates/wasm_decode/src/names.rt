// Imports and exports.

ghost use Rattle.std.specs.Prelude.{◌≡◌, true, MatchOption, IfOk, OnErr, IsErrOf};
ghost use Rattle.leb_binary.specs.Leb.{IsName, IsFront, HasNoFront};
ghost use Rattle.module_ast.specs.Binary.Grammar as grammar;
ghost use Rattle.module_ast.specs.Binary.{IsItem, IsImport, IsExport, IsExportKind, item_floats};
ghost use Rattle.module_ast.specs.Binary.Profile as profile;
ghost use Rattle.wasm_decode.specs.Kinds.{import_form, export_form};
ghost use Rattle.code_decode.proofs.Items.{one_import, one_export};

use crate::part::{Entry, Piece};
use crate::types::{global_type, limits, table_type};
use code_decode::Fault;
use leb_binary::{Bad, Cursor};
use module_ast::module::{Export, ExportKind, Import, Item};
use module_ast::name::Name;
use std::alloc::Global;

/// Takes a name (5.2.4), copied. After an `Err` the cursor may be anywhere.
pub fn read_name(alloc: Global, cursor: &mut Cursor) -> Result<Name, Fault>
    ensures ok { IfOk result (λ n. IsFront IsName cursor.old.left cursor.new.left n) }
    ensures malformed { IsErrOf result Fault.Malformed → HasNoFront IsName cursor.old.left }
{
    let text = cursor.read_name()?;
    let text = text.to_owned(alloc)?;
    Ok(Name::from_string(text))
}

// Takes the description of an import (5.5.5); `None` is a global of a floating-point type.
fn item(cursor: &mut Cursor) -> Result<Option<Item>, Bad>
    ensures ok { IfOk result (λ o. (i : grammar.ItemNode) × IsFront IsItem cursor.old.left cursor.new.left i × MatchOption o (item_floats i ≡ true) (λ x. i ≡ profile.item_node x)) }
    ensures bad { OnErr result (HasNoFront IsItem cursor.old.left) }
{
    let byte = cursor.byte()?;
    match byte {
        0x00 => {
            let ty = cursor.read_u32()?;
            Ok(Some(Item::Func(ty)))
        }
        0x01 => {
            let range = table_type(cursor)?;
            Ok(Some(Item::Table(range)))
        }
        0x02 => {
            let range = limits(cursor)?;
            Ok(Some(Item::Memory(range)))
        }
        0x03 => match global_type(cursor)? {
            Some(ty) => Ok(Some(Item::Global(ty))),
            None => Ok(None),
        },
        _ => Err(Bad),
    }
}

/// The entries of the import section (5.5.5).
pub struct Imports;

impl Entry for Imports {
    type Value = Import;

    ghost Shape = { grammar.ImportNode };

    ghost is = { IsImport };

    ghost form = { import_form };

    fn read(alloc: Global, cursor: &mut Cursor, _nesting: u32) -> Result<Piece<Import>, Fault> {
        let module = read_name(alloc, cursor)?;
        let name = read_name(alloc, cursor)?;
        match item(cursor)? {
            Some(item) => Ok(Piece::Whole(Import { module, name, item })),
            None => Ok(Piece::Floats),
        }
    }

    ghost one = { one_import };
}

// Takes the kind of an export (5.5.10).
fn export_kind(cursor: &mut Cursor) -> Result<ExportKind, Bad>
    ensures ok { IfOk result (λ k. IsFront IsExportKind cursor.old.left cursor.new.left k) }
    ensures bad { OnErr result (HasNoFront IsExportKind cursor.old.left) }
{
    let byte = cursor.byte()?;
    match byte {
        0x00 => Ok(ExportKind::Func),
        0x01 => Ok(ExportKind::Table),
        0x02 => Ok(ExportKind::Memory),
        0x03 => Ok(ExportKind::Global),
        _ => Err(Bad),
    }
}

/// The entries of the export section (5.5.10).
pub struct Exports;

impl Entry for Exports {
    type Value = Export;

    ghost Shape = { grammar.ExportNode };

    ghost is = { IsExport };

    ghost form = { export_form };

    fn read(alloc: Global, cursor: &mut Cursor, _nesting: u32) -> Result<Piece<Export>, Fault> {
        let name = read_name(alloc, cursor)?;
        let kind = export_kind(cursor)?;
        let index = cursor.read_u32()?;
        Ok(Piece::Whole(Export { name, kind, index }))
    }

    ghost one = { one_export };
}
