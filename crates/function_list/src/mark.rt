// Flags of functions, and how pieces change them.

ghost use Rattle.std.specs.Prelude.{◌≡◌, ◌+◌, ◌==◌, ◌&&◌, min, nat_le, length, option_map};
ghost use Rattle.module_ast.specs.Structure.{funcs_of};
ghost use Rattle.hook_select.specs.Groups.{pieces};
ghost use Rattle.function_list.specs.Choices.{calls, calls_some, has_body, is_exported, is_func, is_listed, is_named, listed, text_means};
ghost use Rattle.function_list.specs.Marks.{Marks};
ghost use Rattle.function_list.specs.Pieces.{shown};

use crate::piece::{Piece, read_piece};
use module_ast::module::{Export, ExportKind};
use name_map::{Named, Names};
use wasm_valid::ValidModule;

/// Whether a function has a body: it is one of the module's, and not imported.
pub(crate) fn has_body(m: &ValidModule, func: u32) -> bool
    ensures { result ≡ has_body m.now func }
{
    m.import_count() <= func && func < m.func_count()
}

/// Whether a piece calls functions by this name.
pub(crate) fn calls(piece: Piece<'_>, name: &str) -> bool
    ensures { result ≡ calls (shown piece.entry) name.now }
{
    match piece {
        Piece::Indices(_, _) => false,
        Piece::Name(wanted) => name == wanted,
        Piece::Prefix(front) => name.starts_with(front),
    }
}

/// Whether an export is of a function.
pub(crate) fn is_func(kind: ExportKind) -> bool
    ensures { result ≡ is_func kind }
{
    match kind {
        ExportKind::Func => true,
        _ => false,
    }
}

/// Sets the flags of the functions with a body that a list means, if there is a list.
pub(crate) fn mark_listed(
    flags: &mut [bool],
    m: &ValidModule,
    names: &Names,
    list: Option<&str>,
    flag: bool,
)
    requires { length flags.old ≡ length (funcs_of m.now) }
    ensures { Marks m.now (is_listed m.now names.now (listed (option_map (λ t. t.now) list.entry))) flag flags.old flags.new }
{
    if let Some(list) = list {
        mark_pieces(flags, m, names, list, flag);
    }
}

// Sets the flags of the functions with a body that some piece of a list means.
fn mark_pieces(flags: &mut [bool], m: &ValidModule, names: &Names, list: &str, flag: bool)
    requires { length flags.old ≡ length (funcs_of m.now) }
    ensures { Marks m.now (is_listed m.now names.now (pieces list.now)) flag flags.old flags.new }
{
    for text in list.split(',') {
        mark_text(flags, m, names, text, flag);
    }
}

// Sets the flags of the functions with a body that a piece means.
fn mark_text(flags: &mut [bool], m: &ValidModule, names: &Names, text: &str, flag: bool)
    requires { length flags.old ≡ length (funcs_of m.now) }
    ensures { Marks m.now (λ f. text_means m.now names.now f text.now) flag flags.old flags.new }
{
    match read_piece(text) {
        Some(Piece::Indices(first, last)) => mark_indices(flags, m, first, last, flag),
        Some(piece) => mark_called(flags, m, names, piece, flag),
        None => {}
    }
}

// Sets the flag of a function if it has a body.
fn mark(flags: &mut [bool], m: &ValidModule, func: u32, flag: bool)
    requires { length flags.old ≡ length (funcs_of m.now) }
    ensures { Marks m.now (λ f. func == f) flag flags.old flags.new }
{
    if has_body(m, func) {
        flags[func as usize] = flag;
    }
}

// Sets the flags of the functions with a body from the first index to the last.
fn mark_indices(flags: &mut [bool], m: &ValidModule, first: u32, last: u32, flag: bool)
    requires { length flags.old ≡ length (funcs_of m.now) }
    ensures { Marks m.now (λ f. nat_le first f && nat_le f last) flag flags.old flags.new }
{
    let end = behind(last, m.func_count());
    for func in first..end {
        mark(flags, m, func, flag);
    }
}

// The index behind the last one, or the number of functions if that is less.
fn behind(last: u32, count: u32) -> u32
    ensures { result ≡ min (last + 1) count }
{
    if last < count { last + 1 } else { count }
}

// Sets the flags of the functions with a body that have a name that a piece calls.
fn mark_called(flags: &mut [bool], m: &ValidModule, names: &Names, piece: Piece<'_>, flag: bool)
    requires { length flags.old ≡ length (funcs_of m.now) }
    ensures { Marks m.now (λ f. calls_some m.now names.now (shown piece.entry) (λ g. g == f)) flag flags.old flags.new }
{
    mark_exported(flags, m, piece, flag);
    mark_named(flags, m, names.functions.as_slice(), piece, flag);
}

// The same of names of exports alone.
fn mark_exported(flags: &mut [bool], m: &ValidModule, piece: Piece<'_>, flag: bool)
    requires { length flags.old ≡ length (funcs_of m.now) }
    ensures { Marks m.now (λ f. is_exported (shown piece.entry) (λ g. g == f) m.now.exports) flag flags.old flags.new }
{
    let exports = m.module().exports.as_slice();
    for export in exports {
        mark_export(flags, m, piece, export, flag);
    }
}

// Sets the flag of a function with a body that is exported by a name that a piece calls.
fn mark_export(flags: &mut [bool], m: &ValidModule, piece: Piece<'_>, export: &Export, flag: bool)
    requires { length flags.old ≡ length (funcs_of m.now) }
    ensures { Marks m.now (λ f. is_func export.now.kind && (calls (shown piece.entry) export.now.name.bytes && (export.now.index == f))) flag flags.old flags.new }
{
    if is_func(export.kind) && calls(piece, export.name.as_str()) {
        mark(flags, m, export.index, flag);
    }
}

// The same of names of the section of names alone.
fn mark_named(flags: &mut [bool], m: &ValidModule, names: &[Named], piece: Piece<'_>, flag: bool)
    requires { length flags.old ≡ length (funcs_of m.now) }
    ensures { Marks m.now (λ f. is_named (shown piece.entry) (λ g. g == f) names.now) flag flags.old flags.new }
{
    for named in names {
        mark_name(flags, m, piece, named, flag);
    }
}

// Sets the flag of a function with a body, if a piece calls its name in the section of names.
fn mark_name(flags: &mut [bool], m: &ValidModule, piece: Piece<'_>, named: &Named, flag: bool)
    requires { length flags.old ≡ length (funcs_of m.now) }
    ensures { Marks m.now (λ f. calls (shown piece.entry) named.now.name.bytes && (named.now.index == f)) flag flags.old flags.new }
{
    if calls(piece, named.name.as_str()) {
        mark(flags, m, named.index, flag);
    }
}
