// The functions of a module that lists choose.

ghost use Rattle.std.specs.Prelude.{◌≡◌, ◌&&◌, IfOk, length, map, option_map};
ghost use Rattle.std.specs.List.{range_with_len};
ghost use Rattle.module_ast.specs.Structure.{funcs_of};
ghost use Rattle.function_list.specs.Choices.{calls_some, chosen, first_unknown, has_body, is_exported, is_known_text, is_named, listed};
ghost use Rattle.function_list.specs.Pieces.{shown};

use crate::mark::{calls, has_body, is_func, mark_listed};
use crate::piece::{Piece, read_piece};
use name_map::{Named, Names};
use std::alloc::{AllocError, Global};
use wasm_valid::ValidModule;

/// The first piece of a list that means no function with a body. A piece of indices means none if one of the indices is that
/// of an import or of no function. `None` if there is no such piece, or no list.
pub fn first_unknown<'t>(m: &ValidModule, names: &Names, list: Option<&'t str>) -> Option<&'t str>
    ensures { option_map (λ t. t.now) result ≡ first_unknown m.now names.now (listed (option_map (λ t. t.now) list.entry)) }
{
    list?.split(',').find(|text| !is_known(m, names, text))
}

// Whether a text is a piece that means functions with bodies.
fn is_known(m: &ValidModule, names: &Names, text: &str) -> bool
    ensures { result ≡ is_known_text m.now names.now text.now }
{
    match read_piece(text) {
        Some(Piece::Indices(first, last)) => has_body(m, first) && has_body(m, last),
        Some(piece) => calls_some(m, names, piece),
        None => false,
    }
}

// Whether a function with a body has a name that a piece calls.
fn calls_some(m: &ValidModule, names: &Names, piece: Piece<'_>) -> bool
    ensures { result ≡ calls_some m.now names.now (shown piece.entry) (has_body m.now) }
{
    calls_export(m, piece) || calls_named(m, names.functions.as_slice(), piece)
}

// Whether a function with a body is exported by a name that a piece calls.
fn calls_export(m: &ValidModule, piece: Piece<'_>) -> bool
    ensures { result ≡ is_exported (shown piece.entry) (has_body m.now) m.now.exports }
{
    for export in m.module().exports.as_slice() {
        if is_func(export.kind) && calls(piece, export.name.as_str()) && has_body(m, export.index) {
            return true;
        }
    }
    false
}

// Whether a piece calls the name of a function with a body in the section of names.
fn calls_named(m: &ValidModule, names: &[Named], piece: Piece<'_>) -> bool
    ensures { result ≡ is_named (shown piece.entry) (has_body m.now) names.now }
{
    for named in names {
        if calls(piece, named.name.as_str()) && has_body(m, named.index) {
            return true;
        }
    }
    false
}

/// A flag for each function of a module, whether it is chosen: it has a body, a piece of `functions` means it if there is such a
/// list, and no piece of `except` means it. The time is that of a walk over the names for each piece that is a name. An `Err` comes
/// only if memory runs out.
pub fn choose(
    alloc: Global,
    m: &ValidModule,
    names: &Names,
    functions: Option<&str>,
    except: Option<&str>,
) -> Result<Vec<bool>, AllocError>
    ensures { IfOk result (λ flags. flags.items ≡ chosen m.now names.now (option_map (λ t. t.now) functions.entry) (option_map (λ t. t.now) except.entry)) }
{
    let mut flags = bodies(alloc, m, functions.is_none())?;
    mark_listed(flags.as_mut_slice(), m, names, functions, true);
    mark_listed(flags.as_mut_slice(), m, names, except, false);
    Ok(flags)
}

// A flag for each function of a module: this one if it has a body, and otherwise none.
fn bodies(alloc: Global, m: &ValidModule, flag: bool) -> Result<Vec<bool>, AllocError>
    ensures { IfOk result (λ flags. flags.items ≡ map (λ f. has_body m.now f && flag) (range_with_len 0 (length (funcs_of m.now)))) }
{
    let count = m.func_count();
    let mut flags = Vec::with_capacity(alloc, count as usize)?;
    for func in 0..count {
        flags.push(body_flag(m, func, flag))?;
    }
    Ok(flags)
}

// The flag of a function: this one if it has a body, and otherwise none.
fn body_flag(m: &ValidModule, func: u32, flag: bool) -> bool
    ensures { result ≡ (has_body m.now func && flag) }
{
    has_body(m, func) && flag
}
