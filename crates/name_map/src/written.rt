// Writers of the `name` section.

ghost use Rattle.std.specs.Prelude.{◌≡◌, ◌++◌, OnOk, OnErr};
ghost use Rattle.module_ast.specs.Binary.{sized_bytes, section_bytes, vec_section};
ghost use Rattle.name_map.specs.Written.{module_name_bytes, names_bytes, name_section_bytes};

use crate::Names;
use crate::entries::put_entries;
use crate::entry::Entry;
use crate::section::{CUSTOM, FUNCTIONS, LOCALS, MODULE, NAME};
use leb_binary::put_u64;
use module_ast::name::Name;
use std::alloc::{AllocError, Global};

/// Appends the number of these bytes, and the bytes.
pub fn put_sized(out: &mut Vec<u8>, bytes: &[u8]) -> Result<(), AllocError>
    ensures { OnOk result (out.new.items ≡ out.old.items ++ sized_bytes bytes.now) }
{
    put_u64(out, bytes.len() as u64)?;
    out.extend_from_slice(bytes)?;
    Ok(())
}

// Appends a section or a subsection with this content.
fn put_chunk(out: &mut Vec<u8>, id: u8, content: &[u8]) -> Result<(), AllocError>
    ensures { OnOk result (out.new.items ≡ out.old.items ++ section_bytes id content.now) }
{
    out.push(id)?;
    put_sized(out, content)
}

// Appends the subsection of the module's name, if the module has one.
fn put_module_name(alloc: Global, out: &mut Vec<u8>, given: &Option<Name>) -> Result<(), AllocError>
    ensures { OnOk result (out.new.items ≡ out.old.items ++ module_name_bytes given.now) }
{
    match given {
        Some(name) => {
            let mut content = Vec::new(alloc);
            put_sized(&mut content, name.as_str().as_bytes())?;
            put_chunk(out, MODULE, &content)
        }
        None => Ok(()),
    }
}

// Appends a subsection of these entries, if there are any.
fn put_subsection<E: Entry>(
    alloc: Global,
    out: &mut Vec<u8>,
    id: u8,
    entries: &[E],
) -> Result<(), AllocError>
    ensures { OnOk result (out.new.items ≡ out.old.items ++ vec_section id E.bytes entries.now) }
{
    if entries.is_empty() {
        return Ok(());
    }
    let mut content = Vec::new(alloc);
    put_entries(&mut content, entries)?;
    put_chunk(out, id, &content)
}

// Appends the subsections of these names.
fn put_names(alloc: Global, out: &mut Vec<u8>, names: &Names) -> Result<(), AllocError>
    ensures { OnOk result (out.new.items ≡ out.old.items ++ names_bytes names.now) }
{
    put_module_name(alloc, out, &names.module)?;
    put_subsection(alloc, out, FUNCTIONS, names.functions.as_slice())?;
    put_subsection(alloc, out, LOCALS, names.locals.as_slice())
}

/// Appends the custom section `name` of these names (Standard, Appendix, Name Section): subsections by rising id, all
/// numbers in their shortest spelling. A subsection without entries is left out. If there are no names, there is no
/// section.
///
/// If the content has 2^32 bytes or more, no module can have the section that is appended. An `AllocError` if memory
/// runs out; `out` is then as it was.
pub fn put_section(alloc: Global, out: &mut Vec<u8>, names: &Names) -> Result<(), AllocError>
    ensures put { OnOk result (out.new.items ≡ out.old.items ++ name_section_bytes names.now) }
    ensures kept { OnErr result (out.new.items ≡ out.old.items) }
{
    let mut subsections = Vec::new(alloc);
    put_names(alloc, &mut subsections, names)?;
    if subsections.is_empty() {
        return Ok(());
    }
    let mut content = Vec::new(alloc);
    put_sized(&mut content, NAME.as_bytes())?;
    content.extend_from_slice(&subsections)?;
    let mut section = Vec::new(alloc);
    put_chunk(&mut section, CUSTOM, &content)?;
    out.extend_from_slice(&section)?;
    Ok(())
}
