// Sets of kinds of reports.

ghost use Rattle.std.specs.Prelude.{◌≡◌};
ghost use Rattle.app_load.specs.Kinds.{all_reports, no_kinds, has_kind, with_kind, kind_named, with_named, read_kinds};
ghost use Rattle.hook_select.specs.Groups.{pieces};

use analyses::Kind;

/// A set of kinds of reports: any of blocks, branches, calls and memory.
#[derive(Clone, Copy, PartialEq, Eq)]
pub struct Kinds {
    blocks: bool,
    branches: bool,
    calls: bool,
    memory: bool,
}

impl Kinds {
    /// The set of every kind.
    pub fn all() -> Kinds
        ensures { result ≡ all_reports }
    {
        Kinds {
            blocks: true,
            branches: true,
            calls: true,
            memory: true,
        }
    }

    /// The empty set.
    pub fn none() -> Kinds
        ensures { result ≡ no_kinds }
    {
        Kinds {
            blocks: false,
            branches: false,
            calls: false,
            memory: false,
        }
    }

    /// Whether `kind` is in the set.
    pub fn has(&self, kind: Kind) -> bool
        ensures { result ≡ has_kind self.now kind }
    {
        match kind {
            Kind::Blocks => self.blocks,
            Kind::Branches => self.branches,
            Kind::Calls => self.calls,
            Kind::Memory => self.memory,
        }
    }

    /// The set with `kind` added. The set stays the same if `kind` is in it already.
    pub fn with(self, kind: Kind) -> Kinds
        ensures { result ≡ with_kind self kind }
    {
        match kind {
            Kind::Blocks => Kinds {
                blocks: true,
                ..self
            },
            Kind::Branches => Kinds {
                branches: true,
                ..self
            },
            Kind::Calls => Kinds {
                calls: true,
                ..self
            },
            Kind::Memory => Kinds {
                memory: true,
                ..self
            },
        }
    }
}

// The kind with this name, or None if no kind has this name.
fn kind_named(name: &str) -> Option<Kind>
    ensures { result ≡ kind_named name.now }
{
    match name {
        "blocks" => Some(Kind::Blocks),
        "branches" => Some(Kind::Branches),
        "calls" => Some(Kind::Calls),
        "memory" => Some(Kind::Memory),
        _ => None,
    }
}

/// The set that a list names. The list is `all`, or names of kinds with single commas between them; a name may be
/// repeated. The result is None if a piece between commas names no kind. The empty text therefore gives None, and so
/// does `all` in a longer list.
pub fn read_kinds(list: &str) -> Option<Kinds>
    ensures { result ≡ read_kinds list.now }
{
    match list {
        "all" => Some(Kinds::all()),
        _ => read_names(list),
    }
}

// The set of the kinds that the pieces of a list name, or None if a piece names no kind.
fn read_names(list: &str) -> Option<Kinds>
    ensures { result ≡ with_named no_kinds (pieces list.now) }
{
    let mut kinds = Kinds::none();
    for name in list.split(',') {
        kinds = kinds.with(kind_named(name)?);
    }
    Some(kinds)
}
