// Which hooks words select of a module.

ghost use Rattle.std.specs.Prelude.{◌≡◌, IfErr, IfOk, option_map, string_bytes};
ghost use Rattle.wasabi_app.specs.Hooking.{IsUnselected};
ghost use Rattle.wasabi_app.specs.Selecting.{flags_by, names_kept, reads_names, selected_by, selects, unknown_piece};
ghost use Rattle.wasabi_app.specs.Texts.{no_function_text};
ghost use Rattle.wasabi_app.specs.Words.{given_of};

use crate::words::Given;
use app_load::{Refusal, Status, refused};
use function_list::{choose, first_unknown};
use hook_select::{Hooks, Selection};
use name_map::{Names, no_names};
use std::alloc::{AllocError, Global};
use wasm_valid::ValidModule;

/// Whether the names that a module's file carries are read: if they are kept, or if there is a list of functions.
pub(crate) fn reads_names(given: &Given<'_>) -> bool
    ensures { let g = given_of given.now in result ≡ reads_names g.keeps g.functions g.except }
{
    given.keeps || given.functions.is_some() || given.except.is_some()
}

/// The names that an output keeps, of those that were read.
pub(crate) fn names_kept(alloc: Global, keeps: bool, names: Names) -> Names
    ensures { result ≡ names_kept keeps names }
{
    if keeps { names } else { no_names(alloc) }
}

/// The flags of the functions that get hooks, by the lists of the words; `None` if there is no list, and all functions get hooks.
///
/// An `Err` has status 23 if a piece of a list means no function with a body. The other `Err` is want of memory.
pub(crate) fn chosen_flags(
    alloc: Global,
    given: &Given<'_>,
    m: &ValidModule,
    names: &Names,
) -> Result<Option<Vec<bool>>, Refusal>
    ensures ok { IfOk result (λ flags. let g = given_of given.now in
        selected_by g.hooks g.functions g.except m.now names.now
        ≡ selects (record { groups = g.hooks; functions = option_map (λ f. f.items) flags })) }
    ensures refused { IfErr result (IsUnselected (given_of given.now) m.now names.now) }
{
    if let Some(piece) = unknown_piece(given, m, names) {
        return Err(refused(Status::NoFunction, no_function_line(alloc, piece)));
    }
    match flags_by(alloc, given, m, names) {
        Ok(flags) => Ok(flags),
        Err(_) => Err(Refusal::NoMemory),
    }
}

/// These groups in the functions whose flags are set, or in all functions if there are no flags.
pub(crate) fn selection<'f>(groups: Hooks, flags: &'f Option<Vec<bool>>) -> Selection<'f>
    ensures { result ≡ record { groups = groups; functions = option_map (λ f. f.items) flags.now } }
{
    match flags {
        Some(flags) => Selection::among(groups, flags.as_slice()),
        None => Selection::everywhere(groups),
    }
}

// The first piece of the lists that means no function with a body: of `--functions`, and then of `--except`.
fn unknown_piece<'w>(given: &Given<'w>, m: &ValidModule, names: &Names) -> Option<&'w str>
    ensures { let g = given_of given.now in option_map (λ t. t.now) result ≡ unknown_piece g.functions g.except m.now names.now }
{
    match first_unknown(m, names, given.functions) {
        Some(piece) => Some(piece),
        None => first_unknown(m, names, given.except),
    }
}

// The flags of the functions that get hooks, if there is a list.
fn flags_by(
    alloc: Global,
    given: &Given<'_>,
    m: &ValidModule,
    names: &Names,
) -> Result<Option<Vec<bool>>, AllocError>
    ensures { IfOk result (λ flags. let g = given_of given.now in option_map (λ f. f.items) flags ≡ flags_by g.functions g.except m.now names.now) }
{
    if given.functions.is_none() && given.except.is_none() {
        return Ok(None);
    }
    let flags = choose(alloc, m, names, given.functions, given.except)?;
    Ok(Some(flags))
}

fn no_function_line(alloc: Global, piece: &str) -> Result<String, AllocError>
    ensures { IfOk result (λ line. string_bytes line ≡ no_function_text piece.now) }
{
    format!(in alloc; "error 23: no function {piece}\n")
}
