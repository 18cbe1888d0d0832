// Sections (5.5).

ghost use Rattle.std.specs.Prelude.{◌≡◌, ◌≤◌, ℕ, List, length, IfOk, IsErrOf};
ghost use Rattle.leb_binary.specs.Leb.{IsFront};
ghost use Rattle.leb_binary.specs.Texts.{Text};
ghost use Rattle.module_ast.specs.Binary.{ModuleNode, Section, IsU32, IsVec, IsSized, IsCustom, IsContent, id_of, with_section};
ghost use Rattle.module_ast.specs.Validation.Limits.{deepest, longest_file};
ghost use Rattle.wasm_decode.specs.Drafts.{IsVectorRead, IsDraft};

use crate::bodies::Bodies;
use crate::codes::{Elements, Globals, Segments};
use crate::draft::Draft;
use crate::names::{Exports, Imports, read_name};
use crate::part::{Entry, Part, read_vec};
use crate::types::{FuncTypes, Indices, Memories, Tables};
use code_decode::Fault;
use leb_binary::Cursor;
use module_ast::name::Name;
use std::alloc::Global;

// A vector that the content of a section is.
fn whole<E: Entry>(alloc: Global, content: &[u8], nesting: u32) -> Result<Part<E::Value>, Fault>
    requires bytes { length content.now ≤ longest_file }
    requires nesting { nesting ≤ deepest }
    ensures ok { IfOk result (λ p. (gs : List E.Shape) × IsVec E.is content.now gs × IsVectorRead E.form nesting p gs) }
    ensures malformed { IsErrOf result Fault.Malformed → (gs : List E.Shape) → IsVec E.is content.now gs → ⊥ }
{
    let mut cursor = Cursor::new(content);
    let part = read_vec::<E>(alloc, &mut cursor, nesting)?;
    if cursor.left() != 0 {
        return Err(Fault::Malformed);
    }
    Ok(part)
}

// The index that the content of the start section is.
fn start(content: &[u8]) -> Result<u32, Fault>
    ensures ok { IfOk result (λ x. IsU32 content.now x) }
    ensures malformed { IsErrOf result Fault.Malformed → (x : ℕ) → IsU32 content.now x → ⊥ }
{
    let mut cursor = Cursor::new(content);
    let index = cursor.read_u32()?;
    if cursor.left() != 0 {
        return Err(Fault::Malformed);
    }
    Ok(index)
}

// The name of a custom section (5.5.3), whatever bytes follow the name.
fn custom(alloc: Global, content: &[u8]) -> Result<Name, Fault>
    ensures ok { IfOk result (λ n. IsCustom content.now n) }
    ensures malformed { IsErrOf result Fault.Malformed → (n : Text) → IsCustom content.now n → ⊥ }
{
    let mut cursor = Cursor::new(content);
    let name = read_name(alloc, &mut cursor)?;
    Ok(name)
}

/// Puts a section with this id and content into the draft.
///
/// `Malformed` if no section has this id, or if the content is not exactly one of that section. After an `Err` the
/// draft may have anything.
pub fn read_content(
    alloc: Global,
    draft: &mut Draft,
    id: u8,
    content: &[u8],
    nesting: u32,
) -> Result<(), Fault>
    requires bytes { length content.now ≤ longest_file }
    requires nesting { nesting ≤ deepest }
    ensures ok { IfOk result (λ _. (s : Section) × (id ≡ id_of s.0) × IsContent s.0 content.now s.1 × ((m : ModuleNode) → IsDraft nesting draft.old m → IsDraft nesting draft.new (with_section s m))) }
    ensures malformed { IsErrOf result Fault.Malformed → (s : Section) → id ≡ id_of s.0 → IsContent s.0 content.now s.1 → ⊥ }
{
    match id {
        0 => {
            let name = custom(alloc, content)?;
            draft.customs.push(name)?;
        }
        1 => draft.types = whole::<FuncTypes>(alloc, content, nesting)?,
        2 => draft.imports = whole::<Imports>(alloc, content, nesting)?,
        3 => draft.funcs = whole::<Indices>(alloc, content, nesting)?,
        4 => draft.tables = whole::<Tables>(alloc, content, nesting)?,
        5 => draft.memories = whole::<Memories>(alloc, content, nesting)?,
        6 => draft.globals = whole::<Globals>(alloc, content, nesting)?,
        7 => draft.exports = whole::<Exports>(alloc, content, nesting)?,
        8 => draft.start = Some(start(content)?),
        9 => draft.elements = whole::<Elements>(alloc, content, nesting)?,
        10 => draft.bodies = whole::<Bodies>(alloc, content, nesting)?,
        11 => draft.segments = whole::<Segments>(alloc, content, nesting)?,
        _ => return Err(Fault::Malformed),
    }
    Ok(())
}

/// Takes a section from behind its id, its size and its content, and puts it into the draft. After an `Err` the cursor
/// may be anywhere and the draft may have anything.
pub fn read_section(
    alloc: Global,
    draft: &mut Draft,
    id: u8,
    cursor: &mut Cursor,
    nesting: u32,
) -> Result<(), Fault>
    requires bytes { length cursor.now.left ≤ longest_file }
    requires nesting { nesting ≤ deepest }
    ensures ok { IfOk result (λ _. (s : Section) × (id ≡ id_of s.0) × IsFront (IsSized (IsContent s.0)) cursor.old.left cursor.new.left s.1 × ((m : ModuleNode) → IsDraft nesting draft.old m → IsDraft nesting draft.new (with_section s m))) }
    ensures malformed { IsErrOf result Fault.Malformed → (s : Section) (rest : List ℕ) → id ≡ id_of s.0 → IsFront (IsSized (IsContent s.0)) cursor.old.left rest s.1 → ⊥ }
{
    let size = cursor.read_u32()?;
    let content = cursor.take(size)?;
    read_content(alloc, draft, id, content, nesting)?;
    Ok(())
}
