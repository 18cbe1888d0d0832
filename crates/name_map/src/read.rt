// The names that a file carries.

ghost use Rattle.std.specs.Prelude.{◌≡◌, ◌<◌, All, IfOk};
ghost use Rattle.name_map.specs.Names.{no_names, known_names};
ghost use Rattle.name_map.specs.Sections.{IsFile, AreNames};

use crate::Names;
use crate::entries::entries_below;
use crate::fault::Fault;
use crate::section::{find_section, read_subsections};
use module_ast::seq::Seq;
use std::alloc::{AllocError, Global};

// The length of a file's header in bytes (5.5.15).
const HEADER: usize = 8;

/// No names at all.
pub fn no_names(alloc: Global) -> Names
    ensures { result ≡ no_names }
{
    Names {
        module: None,
        functions: Seq::from_vec(Vec::new(alloc)),
        locals: Seq::from_vec(Vec::new(alloc)),
    }
}

// The names of functions with an index below `functions`.
fn known(names: Names, functions: u32) -> Names
    ensures { result ≡ known_names functions names }
{
    Names {
        module: names.module,
        functions: entries_below(names.functions, functions),
        locals: entries_below(names.locals, functions),
    }
}

/// The names that a module's file carries (Standard, Appendix, Name Section). `functions` is how many functions the
/// module has, imports included; an entry with another index is left out.
///
/// Reads the first custom section `name`, and in it the first subsection of each of the ids 0, 1 and 2. If that section
/// has anything but subsections, or if one of the three is not exactly of its form, there are no names. Memory grows
/// only as names are read. An `AllocError` if memory runs out.
pub fn read_names(alloc: Global, bytes: &[u8], functions: u32) -> Result<Names, AllocError>
    requires { IsFile bytes.now }
    ensures names { IfOk result (λ names. AreNames bytes.now functions names) }

    // Only functions that the module has have names.
    ensures functions { IfOk result (λ names. All (λ n. n.index < functions) names.functions) }
    ensures locals { IfOk result (λ names. All (λ l. l.func < functions) names.locals) }
{
    let Some(section) = find_section(&bytes[HEADER..]) else {
        return Ok(no_names(alloc));
    };
    match read_subsections(alloc, section) {
        Ok(names) => Ok(known(names, functions)),
        Err(Fault::Malformed) => Ok(no_names(alloc)),
        Err(Fault::NoMemory) => Err(AllocError),
    }
}
