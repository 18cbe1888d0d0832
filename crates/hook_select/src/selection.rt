// Which hooks are selected: groups, and the functions that get their hooks.

ghost use Rattle.std.specs.Prelude.{◌≡◌, ◌↔◌, IsTrue, Some};
ghost use Rattle.hook_select.specs.Selections.{no_hooks, everywhere, hooks_at};

use crate::Hooks;
use std::marker::Model;

/// Groups of hooks, and the functions that get their hooks. Contracts see the groups and the flags of the functions,
/// by their indices in the original.
#[derive(Drop)]
pub struct Selection<'f> {
    groups: Hooks,
    every: bool,
    flags: &'f [bool],
}

impl<'f> Model for Selection<'f> {
    ghost use Rattle.std.specs.Prelude.{cond, None, Some};
    ghost use Rattle.hook_select.specs.Selections.{Selection as shown};

    ghost Value = { shown };

    ghost view = { λ a. record { groups = a.groups; functions = cond a.every None (Some a.flags.now) } };
}

impl<'f> Selection<'f> {
    /// These groups in all functions.
    pub fn everywhere(groups: Hooks) -> Selection<'f>
        ensures { result ≡ everywhere groups }
    {
        Selection {
            groups,
            every: true,
            flags: &[],
        }
    }

    /// These groups in the functions whose flags are set. A function past the last flag has none.
    pub fn among(groups: Hooks, flags: &'f [bool]) -> Selection<'f>
        ensures { result ≡ record { groups = groups; functions = Some flags.now } }
    {
        Selection {
            groups,
            every: false,
            flags,
        }
    }

    /// The groups.
    pub fn groups(&self) -> Hooks
        ensures { result ≡ self.now.groups }
    {
        self.groups
    }

    /// The groups of one function.
    pub fn at(&self, func: u32) -> Hooks
        ensures { result ≡ hooks_at self.now func }
    {
        if self.every || self.flags.get(func as usize).copied().unwrap_or(false) {
            self.groups
        } else {
            Hooks::none()
        }
    }

    /// Whether no group is selected.
    pub fn is_empty(&self) -> bool
        ensures { IsTrue result ↔ (self.now.groups ≡ no_hooks) }
    {
        self.groups.is_empty()
    }
}
