// The tree of a run's calls.

ghost use Rattle.std.specs.Prelude.{◌≡◌, ◌+◌, ◌^◌, ◌<◌, ℕ, ◌∷◌, Some, None, Option, option_map, IfSome, IfNone, IfOk, OnOk, OnErr, IfErr};
ghost use Rattle.wasm_sem.specs.Nests.{bracket};
ghost use Rattle.call_tree.specs.Counts.{path_counts, nodes_of, CountsPathsUpTo};
ghost use Rattle.call_tree.specs.Paths.{closed_by, same_bracket};
ghost use Rattle.call_tree.specs.State.{TreeState, fresh_tree, entered, tree_after, IsTreeRefusal, brackets_of, bracket_of, IsNodePlace, counted_from, begun};
ghost use Rattle.call_tree.specs.declared.tree.TreeFault.TheVariants as faults;

use crate::Node;
use crate::table::Table;
use hook_select::Event;
use module_ast::module::Loc;
use std::alloc::{AllocError, Global};
use std::marker::Model;
use wasm_num::{BlockKind, NoMemory};

/// Why an event is not taken.
#[derive(Clone, Copy, Debug, PartialEq, Eq)]
pub enum TreeFault {
    /// An end, at this location, does not close the latest begin that is open.
    NotNested { loc: Loc },
    /// Memory ran out at a begin. No other event takes memory.
    NoMemory,
}

impl From<AllocError> for TreeFault {
    ghost from_gives = { λ _ given. given ≡ faults.NoMemory };

    fn from(_error: AllocError) -> TreeFault {
        TreeFault::NoMemory
    }
}

/// A begin that is open.
#[derive(Clone, Copy)]
pub struct Open {
    pub func: u32,
    pub kind: BlockKind,
    pub begin: i32,
}

// Opens a begin, and counts the path if it is a function's. `at` is the place of the functions that are open; answers
// their place after the begin. After an `Err` all is as before.
fn begin(
    table: &mut Table,
    opened: &mut Vec<Open>,
    at: usize,
    loc: Loc,
    kind: BlockKind,
) -> Result<usize, NoMemory>
    requires there { IsNodePlace table.old (brackets_of opened.old.items) at }
    requires room { (n : ℕ) × (n + 1 < 2 ^ 64) × CountsPathsUpTo n table.old }
    ensures begun { OnOk result (brackets_of opened.new.items ≡ bracket loc.func kind loc.instr ∷ brackets_of opened.old.items) }
    ensures counted { OnOk result (path_counts table.new ≡ counted_from (path_counts table.old) (begun (brackets_of opened.old.items) loc kind)) }
    ensures there { IfOk result (IsNodePlace table.new (brackets_of opened.new.items)) }
    ensures bound { (n : ℕ) → CountsPathsUpTo n table.old → CountsPathsUpTo (n + 1) table.new }
    ensures kept { OnErr result ((table.new ≡ table.old) × (opened.new.items ≡ opened.old.items)) }
{
    opened.reserve(1)?;
    let place = match kind {
        BlockKind::Function => table.visit(at, loc.func)?,
        _ => at,
    };
    opened
        .push(Open {
            func: loc.func,
            kind,
            begin: loc.instr,
        })
        .unwrap();
    Ok(place)
}

// Whether an end closes this begin.
fn closes(latest: &Open, loc: Loc, kind: BlockKind, begin: i32) -> bool
    ensures { result ≡ same_bracket (bracket_of latest.now) (bracket loc.func kind begin) }
{
    latest.func == loc.func && latest.kind == kind && latest.begin == begin
}

// Closes the latest begin, if this is its end. `at` is the place of the functions that are open; answers their place
// after the end. `None` if this is not its end; nothing has then changed.
fn end(
    table: &Table,
    opened: &mut Vec<Open>,
    at: usize,
    loc: Loc,
    kind: BlockKind,
    begin: i32,
) -> Option<usize>
    requires { IsNodePlace table.now (brackets_of opened.old.items) at }
    ensures closed { closed_by (bracket loc.func kind begin) (brackets_of opened.old.items)
        ≡ option_map (λ _. brackets_of opened.new.items) result }
    ensures there { IfSome result (IsNodePlace table.now (brackets_of opened.new.items)) }
    ensures kept { IfNone result (opened.new.items ≡ opened.old.items) }
{
    match opened.last() {
        Some(latest) if closes(latest, loc, kind, begin) => {
            opened.pop();
            let place = match kind {
                BlockKind::Function => table.back(at),
                _ => at,
            };
            Some(place)
        }
        _ => None,
    }
}

/// How often each path of calls came in the entries and events so far. Contracts see a state: the begins that are open,
/// the paths with their counts, and the number of events.
#[derive(Drop)]
pub struct Tree {
    table: Table,
    opened: Vec<Open>,
    // The place of the functions that are open.
    at: usize,
    taken: u64,
}

impl Model for Tree {
    ghost use Rattle.call_tree.specs.Counts.{path_counts};
    ghost use Rattle.call_tree.specs.State.{TreeState, state_code, brackets_of, IsTree};

    ghost Value = { TreeState };

    ghost coded = { state_code };

    ghost view = { λ t. record { brackets = brackets_of t.opened.items; counts = path_counts t.table; taken = t.taken } };

    ghost invariant = { λ t. IsTree t.table (brackets_of t.opened.items) t.at t.taken };
}

impl Tree {
    /// A tree before the first entry or event. Takes no memory, and keeps the allocator for later.
    pub fn new(alloc: Global) -> Tree
        ensures { result ≡ fresh_tree }
    {
        Tree {
            table: Table::new(alloc),
            opened: Vec::new(alloc),
            at: 0,
            taken: 0,
        }
    }

    /// Takes an entry of the start or of a call of the script, which closes all that is open. Takes no memory.
    pub fn enter(&mut self)
        ensures { self.new ≡ entered self.old }
    {
        self.opened.clear();
        self.at = 0;
    }

    /// Takes an event. `NotNested` exactly if the event is an end that differs from the latest begin in function, kind
    /// or position of the begin, or if no begin is open. `NoMemory` only at a begin. After an `Err` the tree is as
    /// before.
    pub fn take(&mut self, event: &Event) -> Result<(), TreeFault>
        requires { self.old.taken < 2 ^ 63 }
        ensures taken { OnOk result (tree_after self.old event.now ≡ Some self.new) }
        ensures kept { OnErr result (self.new ≡ self.old) }
        ensures refused { IfErr result (IsTreeRefusal self.old event.now) }
    {
        match event {
            Event::Begin { loc, kind } => {
                self.at = begin(&mut self.table, &mut self.opened, self.at, *loc, *kind)?;
            }
            Event::End { loc, kind, begin } => {
                match end(&self.table, &mut self.opened, self.at, *loc, *kind, *begin) {
                    Some(at) => self.at = at,
                    None => return Err(TreeFault::NotNested { loc: *loc }),
                }
            }
            _ => {}
        }
        self.taken += 1;
        Ok(())
    }

    /// How many events were taken.
    pub fn taken(&self) -> u64
        ensures { result ≡ self.now.taken }
    {
        self.taken
    }

    /// A node for each path that came: a path is before the longer ones that begin with it, and these are by rising
    /// function. `NoMemory` if memory runs out.
    pub fn rows(&self) -> Result<Vec<Node>, NoMemory>
        ensures { IfOk result (λ nodes. nodes.items ≡ nodes_of self.now.counts) }
    {
        self.table.nodes()
    }
}
