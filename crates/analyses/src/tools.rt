// The four analyses: one type with a kind for each. Each value of a type has the kind of the type.

ghost use Rattle.std.specs.Prelude.{◌≡◌};
ghost use Rattle.analyses.specs.Tools.{fresh_tool};
ghost use Rattle.analyses.specs.declared.Kind.{Kind};
ghost use Rattle.analyses.specs.declared.Kind.TheVariants as kinds;

use crate::analysis::Analysis;
use crate::ledger::Ledger;
use crate::{Kind, Row};
use hook_select::Event;
use std::alloc::Global;
use std::marker::{Model, PhantomData};
use wasm_num::NoMemory;

/// A kind, as a type.
pub trait OfKind {
    ghost KIND: { Kind };

    /// The kind.
    const KIND: Kind;
}

/// `Kind::Blocks`, as a type.
#[derive(Drop)]
pub struct OfBlocks;

impl OfKind for OfBlocks {
    ghost KIND = { kinds.Blocks };

    const KIND: Kind = Kind::Blocks;
}

/// `Kind::Branches`, as a type.
#[derive(Drop)]
pub struct OfBranches;

impl OfKind for OfBranches {
    ghost KIND = { kinds.Branches };

    const KIND: Kind = Kind::Branches;
}

/// `Kind::Calls`, as a type.
#[derive(Drop)]
pub struct OfCalls;

impl OfKind for OfCalls {
    ghost KIND = { kinds.Calls };

    const KIND: Kind = Kind::Calls;
}

/// `Kind::Memory`, as a type.
#[derive(Drop)]
pub struct OfMemory;

impl OfKind for OfMemory {
    ghost KIND = { kinds.Memory };

    const KIND: Kind = Kind::Memory;
}

/// An analysis of one kind. Contracts see its state.
#[derive(Drop)]
pub struct Tool<K: OfKind> {
    ledger: Ledger,
    kind: PhantomData<K>,
}

/// How often each block began. A row has the location of the begin, and the kind of block, 0 to 4, as its tag.
pub type Blocks = Tool<OfBlocks>;

/// How often each `if`, `br`, `br_if` and `br_table` chose each way. Their tags are 0 to 3. The other number of a row is 1 if
/// the condition of an `if` or a `br_if` was not zero and 0 if it was, and the label that was chosen by a `br` or a `br_table`.
pub type Branches = Tool<OfBranches>;

/// How often each function called each function. The position of a row is -1, and its tag is 0. The other number is the index
/// of the called function plus 1, or 0 if the call found no function.
pub type CallGraph = Tool<OfCalls>;

/// How often each load and each store occurred, with the least and the greatest effective address. The tag of a row is the
/// opcode.
pub type MemoryUse = Tool<OfMemory>;

impl<K: OfKind> Model for Tool<K> {
    ghost use Rattle.std.specs.Prelude.{◌≡◌};
    ghost use Rattle.analyses.specs.Tools.{ToolState};

    ghost Value = { ToolState };

    ghost view = { λ a. a.ledger };

    ghost invariant = { λ a. a.ledger.counts ≡ K.KIND };
}

impl<K: OfKind> Tool<K> {
    /// An analysis that has taken no event. It keeps the allocator for its rows.
    pub fn new(alloc: Global) -> Self
        ensures { result ≡ fresh_tool K.KIND }
    {
        Tool {
            ledger: Ledger::new(alloc, K::KIND),
            kind: PhantomData,
        }
    }
}

impl<K: OfKind> Analysis for Tool<K> {
    ghost state = { λ a. a };

    fn kind(&self) -> Kind {
        self.ledger.kind()
    }

    fn taken(&self) -> u64 {
        self.ledger.taken()
    }

    fn take(&mut self, event: &Event) -> Result<(), NoMemory> {
        self.ledger.take(event)
    }

    fn rows(&self) -> Result<Vec<Row>, NoMemory> {
        self.ledger.rows()
    }
}
