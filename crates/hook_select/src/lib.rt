// The groups of hooks, sets of groups, and the events that hooks report.
#![tactic(auto)]

pub mod laws;
mod read;
mod selection;

ghost use Rattle.std.specs.Prelude.{◌≡◌, ◌↔◌, true, false, All, IsTrue};
ghost use Rattle.hook_select.specs.Groups.{has};

pub use crate::read::{UnknownGroup, group_named, read_list};
pub use crate::selection::Selection;
use module_ast::module::Loc;
use module_ast::ops::{LoadOp, StoreOp, VarOp};
use wasm_num::{BlockKind, NumOp, Value, Values};

// Passes to the macro `$to` what it is given here, and then each group in the fixed order with its flag and its name.
macro_rules! each_group {
    ($to:ident($($given:tt)*)) => {
        $to! {
            ($($given)*)
            Start start "start"
            Nop nop "nop"
            Unreachable unreachable "unreachable"
            If if_ "if"
            Br br "br"
            BrIf br_if "br_if"
            BrTable br_table "br_table"
            Begin begin "begin"
            End end "end"
            Const const_ "const"
            Unary unary "unary"
            Binary binary "binary"
            Drop drop "drop"
            Select select "select"
            Local local "local"
            Global global "global"
            Load load "load"
            Store store "store"
            MemorySize memory_size "memory_size"
            MemoryGrow memory_grow "memory_grow"
            Call call "call"
            Return return_ "return"
        }
    };
}

// The groups, as an array.
macro_rules! groups {
    (() $($group:ident $flag:ident $name:literal)*) => {
        [$(GroupName::$group),*]
    };
}

// The name of a group.
macro_rules! name_of {
    (($it:expr) $($group:ident $flag:ident $name:literal)*) => {
        match $it {
            $(GroupName::$group => $name,)*
        }
    };
}

// A set in which each group has the same flag.
macro_rules! flags {
    (($is_in:expr) $($group:ident $flag:ident $name:literal)*) => {
        Hooks { $($flag: $is_in),* }
    };
}

// The flag of a group.
macro_rules! flag_of {
    (($hooks:expr, $it:expr) $($group:ident $flag:ident $name:literal)*) => {
        match $it {
            $(GroupName::$group => $hooks.$flag,)*
        }
    };
}

// Sets the flag of a group.
macro_rules! set_flag {
    (($hooks:ident, $it:expr) $($group:ident $flag:ident $name:literal)*) => {
        match $it {
            $(GroupName::$group => $hooks.$flag = true,)*
        }
    };
}

/// Passes to the macro `$to` what it is given here, and then each event with its number, its fields in order, and its group if it
/// has one.
#[macro_export]
macro_rules! each_event {
    ($to:ident($($given:tt)*)) => {
        $to! {
            ($($given)*)
            1 Start(loc) Start
            2 Nop(loc) Nop
            3 Unreachable(loc) Unreachable
            4 If(loc, cond) If
            5 Br(loc, label, target) Br
            6 BrIf(loc, label, target, cond) BrIf
            7 BrTable(loc, index, label, target) BrTable
            8 Begin(loc, kind) Begin
            9 End(loc, kind, begin) End
            10 Const(loc, value) Const
            11 Unary(loc, op, a, result) Unary
            12 Binary(loc, op, a, b, result) Binary
            13 Drop(loc, value) Drop
            14 Select(loc, first, second, cond) Select
            15 Local(loc, op, index, value) Local
            16 Global(loc, op, index, value) Global
            17 Load(loc, op, offset, address, value) Load
            18 Store(loc, op, offset, address, value) Store
            19 MemorySize(loc, pages) MemorySize
            20 MemoryGrow(loc, by, previous) MemoryGrow
            21 CallPre(loc, callee, args) Call
            22 IndirectPre(loc, ty, slot, callee, args) Call
            23 CallPost(loc, results) Call
            24 Return(loc, results) Return
            25 Stray(hook)
        }
    };
}

// The group of an event.
macro_rules! group_of {
    (($it:expr) $($number:literal $event:ident($($field:ident),*) $($group:ident)?)*) => {
        match $it {
            $($(Event::$event { .. } => Some(GroupName::$group),)?)*
            Event::Stray { .. } => None,
        }
    };
}

/// The groups of hooks, in their fixed order. A group is a set of events that is selected as one.
#[derive(Clone, Copy, PartialEq, Eq)]
pub enum GroupName {
    Start,
    Nop,
    Unreachable,
    If,
    Br,
    BrIf,
    BrTable,
    Begin,
    End,
    Const,
    Unary,
    Binary,
    Drop,
    Select,
    Local,
    Global,
    Load,
    Store,
    MemorySize,
    MemoryGrow,
    Call,
    Return,
}

impl GroupName {
    ghost use Rattle.hook_select.specs.Groups.{group_name};

    /// Every group, in the fixed order.
    pub const ALL: [GroupName; 22] = each_group!(groups());

    /// Its name.
    pub fn name(&self) -> &'static str
        ensures { result.now ≡ group_name self.now }
    {
        each_group!(name_of(self))
    }
}

/// What a step of a run does that hooks can report. `loc` is where it happens in the original, and `target` and `begin` are
/// positions in the same function. A position is -1 at the entry of a function. Indices of functions count imports.
#[derive(Drop)]
pub enum Event {
    /// The start function begins. Its position is -1.
    Start {
        loc: Loc,
    },
    /// A `nop`.
    Nop {
        loc: Loc,
    },
    /// An `unreachable`, which then traps.
    Unreachable {
        loc: Loc,
    },
    /// An `if`, with its condition, which is false if it is 0.
    If {
        loc: Loc,
        cond: u32,
    },
    /// A `br`, with the position that its label leads to.
    Br {
        loc: Loc,
        label: u32,
        target: i32,
    },
    /// A `br_if`, with the position that its label leads to. It branches unless `cond` is 0.
    BrIf {
        loc: Loc,
        label: u32,
        target: i32,
        cond: u32,
    },
    /// A `br_table`, with its index, the label that the index selects, and the position that this label leads to.
    BrTable {
        loc: Loc,
        index: u32,
        label: u32,
        target: i32,
    },
    /// A function, a block, a loop or a branch of an `if` begins.
    Begin {
        loc: Loc,
        kind: BlockKind,
    },
    /// A function, a block, a loop or a branch of an `if` ends. `loc` is where its code ends, and `begin` where it began.
    End {
        loc: Loc,
        kind: BlockKind,
        begin: i32,
    },
    /// A constant.
    Const {
        loc: Loc,
        value: Value,
    },
    /// A number instruction with one operand, `a`.
    Unary {
        loc: Loc,
        op: NumOp,
        a: Value,
        result: Value,
    },
    /// A number instruction with two operands, `a` before `b`.
    Binary {
        loc: Loc,
        op: NumOp,
        a: Value,
        b: Value,
        result: Value,
    },
    /// A `drop`, with the operand that it pops.
    Drop {
        loc: Loc,
        value: Value,
    },
    /// A `select`, with both values. Its result is `second` if `cond` is 0, and `first` if it is not.
    Select {
        loc: Loc,
        first: Value,
        second: Value,
        cond: u32,
    },
    /// A local is read or set, with its value.
    Local {
        loc: Loc,
        op: VarOp,
        index: u32,
        value: Value,
    },
    /// A global is read or set, with its value.
    Global {
        loc: Loc,
        op: VarOp,
        index: u32,
        value: Value,
    },
    /// A load: the immediate `offset`, the operand `address`, and the value that it pushes.
    Load {
        loc: Loc,
        op: LoadOp,
        offset: u32,
        address: u32,
        value: Value,
    },
    /// A store: the immediate `offset`, the operand `address`, and the operand that is stored.
    Store {
        loc: Loc,
        op: StoreOp,
        offset: u32,
        address: u32,
        value: Value,
    },
    /// A `memory.size`, with the number of pages.
    MemorySize {
        loc: Loc,
        pages: u32,
    },
    /// A `memory.grow`: how many pages it asks for, and how many there were before, or 2^32 - 1 if the memory does not grow.
    MemoryGrow {
        loc: Loc,
        by: u32,
        previous: u32,
    },
    /// A `call`, before the called function begins, with its arguments.
    CallPre {
        loc: Loc,
        callee: u32,
        args: Values,
    },
    /// A `call_indirect`, before the called function begins: the index of its type, the index in the table, the function that
    /// is there, if one is, and the arguments.
    IndirectPre {
        loc: Loc,
        ty: u32,
        slot: u32,
        callee: Option<u32>,
        args: Values,
    },
    /// A `call` or a `call_indirect` has returned, with the results.
    CallPost {
        loc: Loc,
        results: Values,
    },
    /// A `return`, or the last `end` of a function, with the results.
    Return {
        loc: Loc,
        results: Values,
    },
    /// A hook call that the information does not explain, with the number of its hook.
    Stray {
        hook: u32,
    },
}

/// A set of groups. Each flag says whether a group is in the set.
#[derive(Clone, Copy, PartialEq, Eq)]
pub struct Hooks {
    pub start: bool,
    pub nop: bool,
    pub unreachable: bool,
    pub if_: bool,
    pub br: bool,
    pub br_if: bool,
    pub br_table: bool,
    pub begin: bool,
    pub end: bool,
    pub const_: bool,
    pub unary: bool,
    pub binary: bool,
    pub drop: bool,
    pub select: bool,
    pub local: bool,
    pub global: bool,
    pub load: bool,
    pub store: bool,
    pub memory_size: bool,
    pub memory_grow: bool,
    pub call: bool,
    pub return_: bool,
}

impl Hooks {
    ghost use Rattle.hook_select.specs.Groups.{hooks_of, with_group};

    // Every group, or none.
    const fn each(is_in: bool) -> Hooks
        ensures { result ≡ hooks_of (λ g. is_in) }
    {
        each_group!(flags(is_in))
    }

    /// No group.
    pub const fn none() -> Hooks
        ensures { result ≡ hooks_of (λ g. false) }
    {
        Hooks::each(false)
    }

    /// Every group.
    pub const fn all() -> Hooks
        ensures { result ≡ hooks_of (λ g. true) }
    {
        Hooks::each(true)
    }

    /// Whether the group is in the set.
    pub fn has(&self, group: GroupName) -> bool
        ensures { result ≡ has self.now group }
    {
        each_group!(flag_of(self, group))
    }

    /// Whether no group is in the set.
    pub fn is_empty(&self) -> bool
        ensures { IsTrue result ↔ (self.now ≡ hooks_of (λ g. false)) }
    {
        has_none(self, &GroupName::ALL)
    }

    /// The set with this group in addition.
    pub fn with(self, group: GroupName) -> Hooks
        ensures { result ≡ with_group self group }
    {
        let mut hooks = self;
        each_group!(set_flag(hooks, group));
        hooks
    }
}

// Whether the set has none of these groups.
fn has_none(hooks: &Hooks, groups: &[GroupName]) -> bool
    ensures { IsTrue result ↔ All (λ g. has hooks.now g ≡ false) groups.now }
{
    groups.iter().all(|group| !hooks.has(*group))
}

impl Event {
    ghost use Rattle.hook_select.specs.Events.{group_of};

    /// The group of the event; `None` for a `Stray`.
    pub fn group(&self) -> Option<GroupName>
        ensures { result ≡ group_of self.now }
    {
        each_event!(group_of(self))
    }
}
