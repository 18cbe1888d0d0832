// Vectors of entries, which are read to their end whether or not the entries are accepted.

ghost use Rattle.std.specs.Prelude.{◌≡◌, ℕ, List, [], ◌∷◌, ◌++◌, length, ◌≤◌, Bool, false, Option, None, IfOk, IsErrOf};
ghost use Rattle.leb_binary.specs.Leb.{IsFront, HasNoFront};
ghost use Rattle.leb_binary.specs.Fronts.{OneFront};
ghost use Rattle.module_ast.specs.Binary.{IsVec};
ghost use Rattle.module_ast.specs.Validation.Limits.{deepest, longest_file};
ghost use Rattle.wasm_decode.specs.Forms.{Form, first_of};
ghost use Rattle.wasm_decode.specs.Parts.{IsPiece, IsPart};

use code_decode::Fault;
use leb_binary::Cursor;
use std::alloc::Global;

/// An entry that was read.
#[derive(Drop)]
pub enum Piece<T> {
    /// An entry whose nesting is within the bound.
    Whole(T),
    /// An entry with a floating-point type or instruction.
    Floats,
    /// An entry without its code, and the nesting of that code, which is above the bound.
    Deep(T, u32),
}

/// The entries of a vector, as far as they were kept.
#[derive(Drop)]
pub struct Part<T> {
    /// The entries; if one is floating-point, not all of them.
    pub items: Vec<T>,
    /// How many entries the vector has.
    pub count: u32,
    /// Whether an entry has a floating-point type or instruction.
    pub floats: bool,
    /// The first nesting above the bound.
    pub deep: Option<u32>,
}

/// A type of entry: its grammar, and how an entry is read.
pub trait Entry {
    type Value: Drop;

    ghost Shape: { Type 0 };

    ghost is: { List ℕ → Shape → Type 0 };

    ghost form: { Form Self.Value Shape };

    /// Takes an entry from the front. Code that nests deeper than `nesting` is left out. After an `Err` the cursor may
    /// be anywhere.
    fn read(alloc: Global, cursor: &mut Cursor, nesting: u32) -> Result<Piece<Self::Value>, Fault>
        requires bytes { length cursor.now.left ≤ longest_file }
        requires nesting { nesting ≤ deepest }
        ensures ok { IfOk result (λ p. (g : Shape) × IsFront is cursor.old.left cursor.new.left g × IsPiece form nesting p g) }
        ensures malformed { IsErrOf result Fault.Malformed → HasNoFront is cursor.old.left };

    ghost one: { OneFront is };
}

impl<T: Drop> Part<T> {
    /// A vector of `count` entries of which none was read.
    pub fn new(alloc: Global, count: u32) -> Part<T>
        ensures items { result.items.items ≡ [] }
        ensures count { result.count ≡ count }
        ensures floats { result.floats ≡ false }
        ensures deep { result.deep ≡ None }
    {
        Part {
            items: Vec::new(alloc),
            count,
            floats: false,
            deep: None,
        }
    }
}

// `before` if something was found before, otherwise `found`.
fn first(before: Option<u32>, found: u32) -> Option<u32>
    ensures { result ≡ first_of before found }
{
    match before {
        None => Some(found),
        Some(first) => Some(first),
    }
}

/// Appends an entry to those that were read.
pub fn add<E: Entry>(part: &mut Part<E::Value>, piece: Piece<E::Value>) -> Result<(), Fault>
    ensures count { part.new.count ≡ part.old.count }
    ensures added { IfOk result (λ _. (bound : ℕ) (gs : List E.Shape) (g : E.Shape) → IsPart E.form bound part.old gs → IsPiece E.form bound piece g → IsPart E.form bound part.new (gs ++ g ∷ [])) }
    ensures well { IsErrOf result Fault.Malformed → ⊥ }
{
    match piece {
        Piece::Whole(item) => part.items.push(item)?,
        Piece::Floats => part.floats = true,
        Piece::Deep(item, found) => {
            part.items.push(item)?;
            part.deep = first(part.deep, found);
        }
    }
    Ok(())
}

/// Takes a vector from the front: the number of its entries, and the entries. Memory grows only as they are read. After
/// an `Err` the cursor may be anywhere.
pub fn read_vec<E: Entry>(
    alloc: Global,
    cursor: &mut Cursor,
    nesting: u32,
) -> Result<Part<E::Value>, Fault>
    requires bytes { length cursor.now.left ≤ longest_file }
    requires nesting { nesting ≤ deepest }
    ensures ok { IfOk result (λ p. (gs : List E.Shape) × IsFront (IsVec E.is) cursor.old.left cursor.new.left gs × IsPart E.form nesting p gs × (p.count ≡ length gs)) }
    ensures malformed { IsErrOf result Fault.Malformed → HasNoFront (IsVec E.is) cursor.old.left }
{
    let count = cursor.read_u32()?;
    let mut part = Part::new(alloc, count);
    for _i in 0..count {
        let piece = E::read(alloc, cursor, nesting)?;
        add::<E>(&mut part, piece)?;
    }
    Ok(part)
}
