// Groups that are a key by themselves.

ghost use Rattle.std.specs.Prelude.{◌≡◌, ℕ, Option, filter};
ghost use Rattle.std.specs.Option.{option_map, option_to_list};
ghost use Rattle.hook_mono.specs.Plains.{is_plain, plain_hook, plain_name, plain_values};
ghost use Rattle.hook_mono.specs.Told.{plain_told, told_event};
ghost use Rattle.hook_mono.specs.Values.{values_from};
ghost use Rattle.hook_mono.specs.Reading.{named};

use crate::words::Words;
use hook_select::{Event, GroupName};
use module_ast::module::Loc;
use wasm_num::ValType;

// Passes to the macro `$to` what it is given here, and then each group that is a key by itself, with the name of its hook and
// the fields of its event after the location. Each field is a word of the call, read as a number or as a signed number.
// br_table is not among them: its event does not follow from the words alone.
macro_rules! each_plain {
    ($to:ident($($given:ident),*)) => {
        $to! {
            ($($given),*)
            Start "start" ()
            Nop "nop" ()
            Unreachable "unreachable" ()
            If "if" (cond: number)
            Br "br" (label: number, target: signed)
            BrIf "br_if" (label: number, target: signed, cond: number)
            MemorySize "memory.size" (pages: number)
            MemoryGrow "memory.grow" (by: number, previous: number)
        }
    };
}

// The type of a word, however it is read.
macro_rules! word_type {
    ($read:ident) => {
        ValType::I32
    };
}

// The hook of a group.
macro_rules! hook_of {
    (($group:ident) $($plain:ident $name:literal ($($field:ident: $read:ident),*))*) => {
        match $group {
            $(GroupName::$plain => Some(($name, &[$(word_type!($read)),*])),)*
            GroupName::BrTable => Some(("br_table", &[ValType::I32])),
            _ => None,
        }
    };
}

// The event of a group, from the words.
macro_rules! event_of {
    (($group:ident, $loc:ident, $words:ident) $($plain:ident $name:literal ($($field:ident: $read:ident),*))*) => {
        match $group {
            $(GroupName::$plain => {
                $(let $field = $words.$read();)*
                Some(Event::$plain { $loc, $($field),* })
            })*
            _ => None,
        }
    };
}

// The name of a hook, and the types of its values that follow the function and the position.
type PlainHook = (&'static str, &'static [ValType]);

// The hook of a group that is a key by itself; none for other groups.
fn plain_hook(group: GroupName) -> Option<PlainHook>
    ensures { option_map (λ hook. (hook.0.now, hook.1.now)) result ≡ plain_hook group }
{
    each_plain!(hook_of(group))
}

/// The event of a call of the hook of a plain group other than br_table, from the words after the position; `None` for other
/// groups.
pub fn plain_event(group: GroupName, loc: Loc, words: &mut Words) -> Option<Event>
    ensures { (at : ℕ → Option ℕ) → option_to_list result ≡ told_event at (plain_told group) loc (values_from (plain_values group) words.old) }
{
    each_plain!(event_of(group, loc, words))
}

// Whether a group is a key by itself.
pub(crate) fn is_plain(group: GroupName) -> bool
    ensures { result ≡ is_plain group }
{
    plain_hook(group).is_some()
}

// The name of the hook of a plain group; empty for other groups.
pub(crate) fn plain_name(group: GroupName) -> &'static str
    ensures { result.now ≡ plain_name group }
{
    match plain_hook(group) {
        Some((name, _)) => name,
        None => "",
    }
}

// The types that follow the function and the position of a plain group; none for other groups.
pub(crate) fn plain_values(group: GroupName) -> &'static [ValType]
    ensures { result.now ≡ plain_values group }
{
    match plain_hook(group) {
        Some((_, values)) => values,
        None => &[],
    }
}

// The plain one of these groups whose hook has this name.
pub(crate) fn plain_named(groups: &[GroupName], name: &str) -> Option<GroupName>
    ensures { result ≡ named plain_name (filter is_plain groups.now) name.now }
{
    groups
        .iter()
        .copied()
        .filter(|group| is_plain(*group))
        .find(|group| plain_name(*group) == name)
}
