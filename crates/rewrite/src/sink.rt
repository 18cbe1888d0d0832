// Where the code of a rewritten body goes.

ghost use Rattle.std.specs.Prelude.{◌≡◌, ◌+◌, ◌-◌, ◌^◌, [], length, min, IfOk, OnOk};
ghost use Rattle.module_ast.specs.Binary.{code_bytes};
ghost use Rattle.module_ast.specs.Structure.{Tree, done, if_else, before, onto, plains};
ghost use Rattle.branch_resolve.specs.Scopes.{ends, end_of};
ghost use Rattle.rewrite.specs.Emitted.{block_ends_code, all_ends_code, opened};
ghost use Rattle.rewrite.specs.Sizes.{AreSummed};

use crate::around::Around;
use crate::setting::Setting;
use module_ast::code::{BlockType, Code, Instr};
use std::alloc::{AllocError, Global};
use wasm_encode::{block_type_length, instrs_length};

/// The instruction that opens a block with one sequence in it.
#[derive(Clone, Copy)]
pub(crate) enum Opening {
    Block,
    Loop,
    If,
}

/// What the code of a rewritten body goes into. One sink makes the code itself, another counts its bytes. Templates add their
/// instructions to a list, and the sink takes from this list what it does not keep there.
pub(crate) trait Sink: Drop {
    /// What a whole sequence is made into.
    type Whole: Drop;

    /// What the sink makes of a sequence.
    ghost made: { Tree → Self.Whole };

    /// What the sink makes of all that it has taken, with this sequence after it.
    ghost whole: { Self → Tree → Self.Whole };

    /// A sink that has taken nothing yet.
    fn new() -> Self
        ensures { (t : Tree) → whole result t ≡ made t };

    /// An empty list for a sequence of about `count` instructions. An `Err` comes if there is no memory.
    fn list(alloc: Global, count: usize) -> Result<Vec<Instr>, AllocError>
        ensures { IfOk result (λ code. code.items ≡ []) };

    /// Takes what is in the list, if it keeps nothing there.
    fn settle(&mut self, code: &mut Vec<Instr>)
        ensures { (t : Tree) → whole self.new (onto code.new.items t) ≡ whole self.old (onto code.old.items t) };

    /// Takes the calls of the end hooks of the blocks that a branch to the label leaves. An `Err` comes if there is no memory.
    fn put_left(
        &mut self,
        alloc: Global,
        setting: &Setting<'_>,
        around: &Around,
        label: u32,
        code: &mut Vec<Instr>,
    ) -> Result<(), AllocError>
        requires { AreSummed setting.now around.now }
        ensures { OnOk result ((t : Tree) → whole self.new (onto code.new.items t) ≡ whole self.old (onto code.old.items (plains (block_ends_code setting.now (ends around.now.scopes label)) t))) };

    /// Takes the calls of the end hooks of all open blocks. An `Err` comes if there is no memory.
    fn put_all(
        &mut self,
        alloc: Global,
        setting: &Setting<'_>,
        around: &Around,
        code: &mut Vec<Instr>,
    ) -> Result<(), AllocError>
        requires { AreSummed setting.now around.now }
        ensures { OnOk result ((t : Tree) → whole self.new (onto code.new.items t) ≡ whole self.old (onto code.old.items (plains (all_ends_code setting.now around.now.scopes) t))) };

    /// Takes a block, loop or `if` with this sequence in it. An `Err` comes if there is no memory.
    fn put_block(
        &mut self,
        opening: Opening,
        ty: BlockType,
        inside: Self::Whole,
        code: &mut Vec<Instr>,
    ) -> Result<(), AllocError>
        ensures { OnOk result ((a t : Tree) → inside ≡ made a → whole self.new (onto code.new.items t) ≡ whole self.old (onto code.old.items (opened opening ty a t))) };

    /// Takes an `if` with these sequences as its parts. An `Err` comes if there is no memory.
    fn put_both(
        &mut self,
        ty: BlockType,
        inside: Self::Whole,
        other: Self::Whole,
        code: &mut Vec<Instr>,
    ) -> Result<(), AllocError>
        ensures { OnOk result ((a b t : Tree) → inside ≡ made a → other ≡ made b → whole self.new (onto code.new.items t) ≡ whole self.old (onto code.old.items (if_else ty a b t))) };

    /// What the sink makes of the sequence, which ends here. An `Err` comes if there is no memory.
    fn finish(self, alloc: Global, code: Vec<Instr>) -> Result<Self::Whole, AllocError>
        ensures { IfOk result (λ all. all ≡ whole self (onto code.items done)) };
}

/// Adds an instruction. An `Err` comes if there is no memory.
pub(crate) fn put<S: Sink>(
    instr: Instr,
    sink: &mut S,
    code: &mut Vec<Instr>,
) -> Result<(), AllocError>
    ensures { OnOk result ((t : Tree) → S.whole sink.new (onto code.new.items t) ≡ S.whole sink.old (onto code.old.items (before instr t))) }
{
    code.push(instr)?;
    sink.settle(code);
    Ok(())
}

/// The sink that makes the code. All of it stays in the list.
#[derive(Drop)]
pub(crate) struct Kept;

impl Sink for Kept {
    type Whole = Code;

    ghost made = { λ t. t };

    ghost whole = { λ s t. t };

    fn new() -> Kept {
        Kept
    }

    fn list(alloc: Global, count: usize) -> Result<Vec<Instr>, AllocError> {
        Vec::with_capacity(alloc, count)
    }

    fn settle(&mut self, _code: &mut Vec<Instr>) {}

    fn put_left(
        &mut self,
        alloc: Global,
        setting: &Setting<'_>,
        around: &Around,
        label: u32,
        code: &mut Vec<Instr>,
    ) -> Result<(), AllocError> {
        setting.push_left(alloc, label, &around.scopes, code)
    }

    fn put_all(
        &mut self,
        alloc: Global,
        setting: &Setting<'_>,
        around: &Around,
        code: &mut Vec<Instr>,
    ) -> Result<(), AllocError> {
        setting.push_all_ends(alloc, &around.scopes, code)
    }

    fn put_block(
        &mut self,
        opening: Opening,
        ty: BlockType,
        inside: Code,
        code: &mut Vec<Instr>,
    ) -> Result<(), AllocError> {
        match opening {
            Opening::Block => code.push(Instr::Block(ty, inside))?,
            Opening::Loop => code.push(Instr::Loop(ty, inside))?,
            Opening::If => code.push(Instr::If(ty, inside))?,
        }
        Ok(())
    }

    fn put_both(
        &mut self,
        ty: BlockType,
        inside: Code,
        other: Code,
        code: &mut Vec<Instr>,
    ) -> Result<(), AllocError> {
        code.push(Instr::IfElse(ty, inside, other))?;
        Ok(())
    }

    fn finish(self, alloc: Global, code: Vec<Instr>) -> Result<Code, AllocError> {
        Code::from_vec(alloc, code)
    }
}

/// The sink that counts the bytes of the code, up to 2^64 - 1. It drops what a template adds to the list as soon as that is
/// counted.
#[derive(Drop)]
pub(crate) struct Counted {
    bytes: u64,
}

impl Counted {
    // Adds these bytes to the count.
    fn add(&mut self, bytes: u64)
        ensures { self.new.bytes ≡ min (self.old.bytes + bytes) (2 ^ 64 - 1) }
    {
        self.bytes = self.bytes.saturating_add(bytes);
    }
}

impl Sink for Counted {
    type Whole = u64;

    ghost made = { λ t. min (length (code_bytes t)) (2 ^ 64 - 1) };

    ghost whole = { λ s t. min (s.bytes + length (code_bytes t)) (2 ^ 64 - 1) };

    fn new() -> Counted {
        Counted { bytes: 0 }
    }

    fn list(alloc: Global, _count: usize) -> Result<Vec<Instr>, AllocError> {
        Ok(Vec::new(alloc))
    }

    fn settle(&mut self, code: &mut Vec<Instr>) {
        self.add(instrs_length(code));
        code.clear();
    }

    fn put_left(
        &mut self,
        _alloc: Global,
        _setting: &Setting<'_>,
        around: &Around,
        label: u32,
        _code: &mut Vec<Instr>,
    ) -> Result<(), AllocError> {
        self.add(around.sums.left_by(label));
        Ok(())
    }

    fn put_all(
        &mut self,
        _alloc: Global,
        _setting: &Setting<'_>,
        around: &Around,
        _code: &mut Vec<Instr>,
    ) -> Result<(), AllocError> {
        self.add(around.sums.all());
        Ok(())
    }

    // Counts the opcode, the type, the sequence inside, and the `end`.
    fn put_block(
        &mut self,
        _opening: Opening,
        ty: BlockType,
        inside: u64,
        _code: &mut Vec<Instr>,
    ) -> Result<(), AllocError> {
        self.add(2 + block_type_length(ty));
        self.add(inside);
        Ok(())
    }

    // Counts the opcode, the type, both sequences, the `else`, and the `end`.
    fn put_both(
        &mut self,
        ty: BlockType,
        inside: u64,
        other: u64,
        _code: &mut Vec<Instr>,
    ) -> Result<(), AllocError> {
        self.add(3 + block_type_length(ty));
        self.add(inside);
        self.add(other);
        Ok(())
    }

    fn finish(self, _alloc: Global, code: Vec<Instr>) -> Result<u64, AllocError> {
        Ok(self.bytes.saturating_add(instrs_length(&code)))
    }
}
