// Lists the groups of a set.

ghost use Rattle.std.specs.Prelude.{◌≡◌, filter, IfOk};
ghost use Rattle.hook_select.specs.Groups.{has, groups_in};

use hook_select::{GroupName, Hooks};
use std::alloc::Global;
use wasm_num::NoMemory;

// Those of these groups that are in the set.
fn selected(alloc: Global, groups: &[GroupName], hooks: &Hooks) -> Result<Vec<GroupName>, NoMemory>
    ensures { IfOk result (λ found. found.items ≡ filter (has hooks.now) groups.now) }
{
    groups
        .iter()
        .copied()
        .filter(|group| hooks.has(*group))
        .collect(alloc)
}

// The groups of the set, in their fixed order.
pub(crate) fn groups_of(alloc: Global, hooks: &Hooks) -> Result<Vec<GroupName>, NoMemory>
    ensures { IfOk result (λ found. found.items ≡ groups_in hooks.now) }
{
    selected(alloc, &GroupName::ALL, hooks)
}
