// The rows of one analysis, kept in order.

ghost use Rattle.std.specs.Prelude.{◌≡◌, ◌+◌, ◌^◌, ◌<◌, ℕ, [], IfOk, OnOk, OnErr};
ghost use Rattle.analyses.specs.Book.{with_event};
ghost use Rattle.analyses.specs.Tools.{ToolState, fresh_tool, state_after};
ghost use Rattle.analyses.specs.Headings.{key_of_heading, row_of_entry, book_of_entries, first_tally, counted_tally, CountsUpTo};

use crate::headings::{address_of, heading_of};
use crate::{Kind, Row};
use hook_select::Event;
use std::alloc::Global;
use std::collections::BTreeMap;
use std::marker::Model;
use wasm_num::NoMemory;

/// What a row counts: the function, the position, and a tag and another number that say what it is there.
#[derive(Clone, Copy, PartialEq, Eq, PartialOrd, Ord)]
pub struct Heading {
    pub func: u32,
    pub instr: i32,
    pub tag: u8,
    pub other: u64,
}

/// How many events a row counts, and for memory the least and the greatest address. Other kinds have 0 for the addresses.
#[derive(Clone, Copy)]
pub struct Totals {
    pub count: u64,
    pub least: u64,
    pub greatest: u64,
}

impl Totals {
    // The totals of the first event under a heading.
    fn first(kind: Kind, address: u64) -> Totals
        ensures { result ≡ first_tally kind address }
    {
        let address = if kind == Kind::Memory { address } else { 0 };
        Totals {
            count: 1,
            least: address,
            greatest: address,
        }
    }

    // The totals with one more event.
    fn counted(&self, kind: Kind, address: u64) -> Totals
        requires { self.now.count + 1 < 2 ^ 64 }
        ensures { result ≡ counted_tally kind address self.now }
    {
        let count = self.count + 1;
        match kind {
            Kind::Memory => Totals {
                count,
                least: self.least.min(address),
                greatest: self.greatest.max(address),
            },
            _ => Totals { count, ..*self },
        }
    }
}

// The row of a heading and its totals.
fn row(heading: &Heading, tally: &Totals) -> Row
    ensures { result ≡ row_of_entry (heading.now, tally.now) }
{
    Row {
        func: heading.func,
        instr: heading.instr,
        tag: heading.tag,
        other: heading.other,
        count: tally.count,
        least: tally.least,
        greatest: tally.greatest,
    }
}

// Counts an event under a heading. `NoMemory` if there is no memory for a new row; the rows are then as they were.
fn count_under(
    rows: &mut BTreeMap<Heading, Totals>,
    kind: Kind,
    heading: Heading,
    address: u64,
) -> Result<(), NoMemory>
    requires { (n : ℕ) × (n + 1 < 2 ^ 64) × CountsUpTo n rows.old.entries }
    ensures counted { OnOk result (book_of_entries rows.new.entries
        ≡ with_event kind (key_of_heading heading) address (book_of_entries rows.old.entries)) }
    ensures bounded { (n : ℕ) → CountsUpTo n rows.old.entries → CountsUpTo (n + 1) rows.new.entries }
    ensures kept { OnErr result (rows.new.entries ≡ rows.old.entries) }
{
    let tally = match rows.get(&heading) {
        Some(before) => before.counted(kind, address),
        None => Totals::first(kind, address),
    };
    rows.insert(heading, tally)?;
    Ok(())
}

/// The book of one kind of events, with a row for each heading. Contracts see the state of an analysis.
#[derive(Drop)]
pub struct Ledger {
    alloc: Global,
    kind: Kind,
    taken: u64,
    rows: BTreeMap<Heading, Totals>,
}

impl Model for Ledger {
    ghost use Rattle.analyses.specs.Tools.{ToolState};
    ghost use Rattle.analyses.specs.Headings.{book_of_entries, CountsUpTo};

    ghost Value = { ToolState };

    ghost view = { λ l. record { counts = l.kind; event_count = l.taken; book = book_of_entries l.rows.entries } };

    ghost invariant = { λ l. CountsUpTo l.taken l.rows.entries };
}

impl Ledger {
    /// A book of this kind without rows.
    pub fn new(alloc: Global, kind: Kind) -> Self
        ensures { result ≡ fresh_tool kind }
    {
        Ledger {
            alloc,
            kind,
            taken: 0,
            rows: BTreeMap::new(alloc),
        }
    }

    /// The kind of the book.
    pub fn kind(&self) -> Kind
        ensures { result ≡ self.now.counts }
    {
        self.kind
    }

    /// How many events the book has taken.
    pub fn taken(&self) -> u64
        ensures { result ≡ self.now.event_count }
    {
        self.taken
    }

    /// Takes one more event.
    ///
    /// `NoMemory` if memory runs out; the book is then as it was.
    pub fn take(&mut self, event: &Event) -> Result<(), NoMemory>
        requires { self.old.event_count + 1 < 2 ^ 64 }
        ensures taken { OnOk result (self.new ≡ state_after self.old event.now) }
        ensures kept { OnErr result (self.new ≡ self.old) }
    {
        if let Some(heading) = heading_of(self.kind, event) {
            count_under(&mut self.rows, self.kind, heading, address_of(event))?;
        }
        self.taken += 1;
        Ok(())
    }

    /// The rows, in order.
    ///
    /// `NoMemory` if memory runs out.
    pub fn rows(&self) -> Result<Vec<Row>, NoMemory>
        ensures { IfOk result (λ rows. rows.items ≡ self.now.book) }
    {
        self.rows
            .iter()
            .map(|(heading, tally)| row(heading, tally))
            .collect(self.alloc)
    }
}
