// Finds the blocks of a function that contain a position.

ghost use Rattle.std.specs.Prelude.{◌≡◌, ◌++◌, ◌<◌, ◌≤◌, ◌≤ℤ◌, ◌&&◌, int_lt, length, take, IfOk, OnOk};
ghost use Rattle.static_info.specs.Read.{within_block};
ghost use Rattle.static_info.specs.Halves.{span_of, IsSpanOver, AreSpansOf, AddSpansOf};

use branch_resolve::Block;
use std::alloc::Global;
use std::marker::Model;
use wasm_num::NoMemory;

/// The span of some blocks: the position where the first of them begins, and the position where the last of them ends.
#[derive(Clone, Copy)]
pub struct Span {
    pub begin: i32,
    pub end: i32,
}

impl Span {
    // The span of one block.
    fn of(block: &Block) -> Span
        ensures { result ≡ span_of block.now }
    {
        Span {
            begin: block.begin,
            end: block.end,
        }
    }

    // The span of two lists of blocks together, from the span of each.
    fn with(self, other: Span) -> Span
        ensures begin { (result.begin ≤ℤ self.begin) × (result.begin ≤ℤ other.begin) }
        ensures end { (self.end ≤ℤ result.end) × (other.end ≤ℤ result.end) }
    {
        Span {
            begin: self.begin.min(other.begin),
            end: self.end.max(other.end),
        }
    }

    // Whether the position is strictly inside the span. If it is not, no block of the span contains the position.
    fn contains(&self, position: i32) -> bool
        ensures { result ≡ (int_lt self.now.begin position && int_lt position self.now.end) }
    {
        self.begin < position && position < self.end
    }
}

/// The blocks of a function. Contracts see a list. The blocks around a position are found without a walk over all of them: the
/// list is halved again and again, and the table keeps the span of each piece.
#[derive(Drop)]
pub struct BlockTable {
    blocks: Vec<Block>,
    // The spans of the first half and its pieces, then those of the second half and its pieces, then the span of the whole.
    spans: Vec<Span>,
}

impl Model for BlockTable {
    ghost use Rattle.std.specs.Prelude.{List};
    ghost use Rattle.branch_resolve.specs.declared.Block.{Block as shown};
    ghost use Rattle.static_info.specs.Halves.{AreSpansOf};

    ghost Value = { List shown };

    ghost view = { λ a. a.blocks.items };

    ghost invariant = { λ a. AreSpansOf a.blocks.items a.spans.items };
}

impl BlockTable {
    ghost use Rattle.std.specs.Prelude.{[]};

    /// No blocks, as for an imported function. Allocates nothing.
    pub fn none(alloc: Global) -> BlockTable
        ensures { result ≡ [] }
    {
        BlockTable {
            blocks: Vec::new(alloc),
            spans: Vec::new(alloc),
        }
    }

    /// A table of these blocks, in this order. Goes over them once. An `Err` comes only if memory runs out.
    pub fn from_vec(alloc: Global, blocks: Vec<Block>) -> Result<BlockTable, NoMemory>
        ensures { IfOk result (λ made. made ≡ blocks.items) }
    {
        let mut spans = Vec::new(alloc);
        if !blocks.is_empty() {
            let _whole = add_spans(blocks.as_slice(), &mut spans)?;
        }
        Ok(BlockTable { blocks, spans })
    }

    /// The blocks, in order.
    pub fn as_slice(&self) -> &[Block]
        ensures { result.now ≡ self.now }
    {
        &self.blocks
    }

    /// The innermost blocks around a position, at most `most` of them, innermost first. A block contains the positions between
    /// its begin and its end, but not these two. Takes time in proportion to the number of blocks in the result and to the
    /// logarithm of the number of all blocks. An `Err` comes only if memory runs out.
    pub fn around(&self, alloc: Global, position: i32, most: usize) -> Result<Vec<Block>, NoMemory>
        ensures { IfOk result (λ found. found.items ≡ take most (within_block position self.now)) }
    {
        let mut found = Vec::new(alloc);
        let blocks = self.blocks.as_slice();
        if !blocks.is_empty() {
            add_around(blocks, self.spans.as_slice(), position, most, &mut found)?;
        }
        Ok(found)
    }
}

// Appends the spans of these blocks and their pieces to `spans`, and returns the span of all these blocks.
fn add_spans(blocks: &[Block], spans: &mut Vec<Span>) -> Result<Span, NoMemory>
    requires { 0 < length blocks.now }
    ensures over { IfOk result (λ span. IsSpanOver span blocks.now) }
    ensures noted { OnOk result (AddSpansOf blocks.now spans.old.items spans.new.items) }
{
    let count = blocks.len();
    if count == 1 {
        let span = Span::of(&blocks[0]);
        spans.push(span)?;
        return Ok(span);
    }
    let (first, second) = blocks.split_at(count / 2);
    let first_span = add_spans(first, spans)?;
    let second_span = add_spans(second, spans)?;
    let span = first_span.with(second_span);
    spans.push(span)?;
    Ok(span)
}

// Appends the blocks around a position to `found`, innermost first, until `found` has `most` blocks.
fn add_around(
    blocks: &[Block],
    spans: &[Span],
    position: i32,
    most: usize,
    found: &mut Vec<Block>,
) -> Result<(), NoMemory>
    requires some { 0 < length blocks.now }
    requires spans { AreSpansOf blocks.now spans.now }
    requires room { length found.old.items ≤ most }
    ensures { OnOk result (found.new.items ≡ take most (found.old.items ++ within_block position blocks.now)) }
{
    if found.len() == most {
        return Ok(());
    }
    let last = spans.len() - 1;
    let whole = spans[last];
    if !whole.contains(position) {
        return Ok(());
    }
    let count = blocks.len();
    if count == 1 {
        found.push(blocks[0])?;
        return Ok(());
    }
    let (first, second) = blocks.split_at(count / 2);
    let (first_spans, second_spans) = spans[..last].split_at(2 * (count / 2) - 1);
    add_around(second, second_spans, position, most, found)?;
    add_around(first, first_spans, position, most, found)
}
