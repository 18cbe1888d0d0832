// The `name` section: where it is in a file, and what it has.

ghost use Rattle.std.specs.Prelude.{ℕ, List, Option, MatchOption, option_map, IfOk, IsErrOf};
ghost use Rattle.leb_binary.specs.Texts.{Text};
ghost use Rattle.module_ast.specs.Binary.{AreItems};
ghost use Rattle.name_map.specs.declared.Names.{Names as Seen};
ghost use Rattle.name_map.specs.Sections.{Chunk, chunk, IsChunk, IsNameSection, IsFirstNameSection, IsModuleNameIn, IsNameData};

use crate::Names;
use crate::chunk::{find_chunk, next_chunk};
use crate::entries::entries_in;
use crate::entry::read_name;
use crate::fault::Fault;
use leb_binary::Cursor;
use module_ast::name::Name;
use module_ast::seq::Seq;
use std::alloc::Global;

/// The name of the custom section.
pub const NAME: &str = "name";

/// The id of custom sections (5.5.3).
pub const CUSTOM: u8 = 0;

/// The id of the subsection of the module's name.
pub const MODULE: u8 = 0;

/// The id of the subsection of the functions' names.
pub const FUNCTIONS: u8 = 1;

/// The id of the subsection of the locals' names.
pub const LOCALS: u8 = 2;

// The bytes behind the name in a `name` section; `None` if it is another section.
fn name_data(id: u8, content: &[u8]) -> Option<&[u8]>
    ensures { MatchOption result ((subsections : List ℕ) → IsNameSection (chunk id content.now) subsections → ⊥) (λ s. IsNameSection (chunk id content.now) s.now) }
{
    if id != CUSTOM {
        return None;
    }
    let mut cursor = Cursor::new(content);
    let Ok(name) = cursor.read_name() else {
        return None;
    };
    if name == NAME {
        return Some(&content[cursor.place()..]);
    }
    None
}

/// The content of the first `name` section among these sections, if there is one.
pub fn find_section(sections: &[u8]) -> Option<&[u8]>
    requires { (cs : List Chunk) × AreItems IsChunk sections.now cs }
    ensures { (cs : List Chunk) × AreItems IsChunk sections.now cs × IsFirstNameSection cs (option_map (λ s. s.now) result) }
{
    let mut cursor = Cursor::new(sections);
    let mut found = None;
    while let Ok((id, content)) = next_chunk(&mut cursor) {
        found = found.or(name_data(id, content));
    }
    found
}

// The name that the subsection is; `None` if the subsection is absent.
fn module_name(alloc: Global, subsection: Option<&[u8]>) -> Result<Option<Name>, Fault>
    ensures ok { IfOk result (λ name. IsModuleNameIn (option_map (λ s. s.now) subsection.entry) name) }
    ensures malformed { IsErrOf result Fault.Malformed → (name : Option Text) → IsModuleNameIn (option_map (λ s. s.now) subsection.entry) name → ⊥ }
{
    let Some(content) = subsection else {
        return Ok(None);
    };
    let mut cursor = Cursor::new(content);
    let name = read_name(alloc, &mut cursor)?;
    if cursor.left() != 0 {
        return Err(Fault::Malformed);
    }
    Ok(Some(name))
}

/// The names in a `name` section. `Malformed` exactly if the section is not of its form.
pub fn read_subsections(alloc: Global, bytes: &[u8]) -> Result<Names, Fault>
    ensures ok { IfOk result (λ names. IsNameData bytes.now names) }
    ensures malformed { IsErrOf result Fault.Malformed → (names : Seen) → IsNameData bytes.now names → ⊥ }
{
    let module = module_name(alloc, find_chunk(bytes, MODULE)?)?;
    let functions = entries_in(alloc, find_chunk(bytes, FUNCTIONS)?)?;
    let locals = entries_in(alloc, find_chunk(bytes, LOCALS)?)?;
    Ok(Names {
        module,
        functions: Seq::from_vec(functions),
        locals: Seq::from_vec(locals),
    })
}
