// Reads lists of groups from text.

ghost use Rattle.std.specs.Prelude.{◌≡◌, find, bytes_eq, IfOk, IfErr};
ghost use Rattle.hook_select.specs.Groups.ListReading.{reads, unknown};
ghost use Rattle.hook_select.specs.Groups.{group_name, group_named, pieces, list_pieces, read_list};

use crate::{GroupName, Hooks};

/// The group with this name, if there is one.
pub fn group_named(name: &str) -> Option<GroupName>
    ensures { result ≡ group_named name.now }
{
    first_named(&GroupName::ALL, name)
}

// The first of these groups with this name.
fn first_named(groups: &[GroupName], name: &str) -> Option<GroupName>
    ensures { result ≡ find (λ g. bytes_eq (group_name g) name.now) groups.now }
{
    groups.iter().copied().find(|group| group.name() == name)
}

/// A text is not a list of groups, because one of its pieces names no group.
#[derive(Clone, Copy, Debug, PartialEq, Eq)]
pub struct UnknownGroup {
    /// The place of the first such piece among the pieces between commas, counted from 0.
    pub place: u64,
}

/// The set of the groups that a text lists: `all`, `none`, or names of groups with single commas between them. A name may be
/// repeated.
///
/// `UnknownGroup` if a piece between commas names no group. The empty text has one piece, which names none, and `all` and
/// `none` are no names in a longer list.
pub fn read_list(text: &str) -> Result<Hooks, UnknownGroup>
    ensures reads { IfOk result (λ hooks. read_list text.now ≡ reads hooks) }
    ensures unknown { IfErr result (λ e. read_list text.now ≡ unknown e.place) }
{
    match text {
        "all" => Ok(Hooks::all()),
        "none" => Ok(Hooks::none()),
        _ => read_names(text),
    }
}

// The set of the groups that the pieces of a text name.
fn read_names(text: &str) -> Result<Hooks, UnknownGroup>
    ensures reads { IfOk result (λ hooks. list_pieces (pieces text.now) ≡ reads hooks) }
    ensures unknown { IfErr result (λ e. list_pieces (pieces text.now) ≡ unknown e.place) }
{
    let mut hooks = Hooks::none();
    let mut place = 0;
    for name in text.split(',') {
        match group_named(name) {
            Some(group) => hooks = hooks.with(group),
            None => return Err(UnknownGroup { place }),
        }
        place += 1;
    }
    Ok(hooks)
}
