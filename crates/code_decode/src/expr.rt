// The decoder of expressions.

ghost use Rattle.std.specs.Prelude.{◌≡◌, ◌≤◌, ◌<◌, ◌^◌, ℕ, [], true, false, length, take, drop, IfOk, OnOk, IsErrOf};
ghost use Rattle.leb_binary.specs.Leb.{HasNoFront};
ghost use Rattle.module_ast.specs.Binary.{IsExpr};
ghost use Rattle.module_ast.specs.Structure.{code_of};
ghost use Rattle.module_ast.specs.Validation.Limits.{deepest, longest_file};
ghost use Rattle.code_decode.specs.Answers.{IsExprAnswer};
ghost use Rattle.code_decode.specs.Opened.{closed_instr};
ghost use Rattle.code_decode.specs.Scans.{OpensSequence, TurnsToElse, IsNoThen, ClosesSequence};

use crate::fault::Fault;
use crate::token::{Kind, Read, next_token};
use leb_binary::Cursor;
use module_ast::code::{Code, Instr};
use std::alloc::{AllocError, Global};

/// An expression that was read: its code; or that it has a floating-point type or instruction; or its nesting, if that
/// is above the bound.
#[derive(Drop)]
pub enum Expr {
    Built(Code),
    Floats,
    Deep { found: u32 },
}

// An open sequence, and where its instructions begin on the stack of instructions.
#[derive(Drop)]
struct Frame {
    start: usize,
    kind: Kind,
}

// What was read so far: the open sequences; the instructions of all of them on one stack, those of the outermost
// sequence first; whether anything was floating-point; and the nesting.
#[derive(Drop)]
struct Scan {
    stack: Vec<Frame>,
    items: Vec<Instr>,
    floats: bool,
    nesting: usize,
}

fn close(kind: Kind, code: Code) -> Instr
    ensures { result ≡ closed_instr kind code }
{
    match kind {
        Kind::Block(ty) => Instr::Block(ty, code),
        Kind::Loop(ty) => Instr::Loop(ty, code),
        Kind::Then(ty) => Instr::If(ty, code),
        Kind::Else(ty, then) => Instr::IfElse(ty, then, code),
    }
}

impl Scan {
    fn new(alloc: Global) -> Scan
        ensures stack { result.stack.items ≡ [] }
        ensures items { result.items.items ≡ [] }
        ensures floats { result.floats ≡ false }
        ensures nesting { result.nesting ≡ 0 }
    {
        Scan {
            stack: Vec::new(alloc),
            items: Vec::new(alloc),
            floats: false,
            nesting: 0,
        }
    }

    fn open(&mut self, kind: Kind, floating: bool) -> Result<(), AllocError>
        ensures { OnOk result (OpensSequence self.old self.new kind floating) }
    {
        let start = self.items.len();
        self.stack.push(Frame { start, kind })?;
        self.floats = self.floats || floating;
        Ok(())
    }

    // Takes the instructions from `start` on off the stack, in a list without spare room.
    fn take(&mut self, alloc: Global, start: usize) -> Result<Code, AllocError>
        requires { start ≤ length self.old.items.items }
        ensures code { IfOk result (λ code. code ≡ code_of (drop start self.old.items.items)) }
        ensures items { OnOk result (self.new.items.items ≡ take start self.old.items.items) }
        ensures stack { self.new.stack ≡ self.old.stack }
        ensures floats { self.new.floats ≡ self.old.floats }
        ensures nesting { self.new.nesting ≡ self.old.nesting }
    {
        let items = self.items.split_off(start)?;
        Code::from_vec(alloc, items)
    }

    // Ends the first branch of an `if`, whose frame was the innermost, and begins the second. `Malformed` if the frame
    // is of anything else.
    fn turn(&mut self, alloc: Global, frame: Frame) -> Result<(), Fault>
        requires { frame.start ≤ length self.old.items.items }
        ensures ok { OnOk result (TurnsToElse self.old self.new frame) }
        ensures malformed { IsErrOf result Fault.Malformed → IsNoThen frame.kind }
    {
        let Frame { start, kind } = frame;
        let Kind::Then(ty) = kind else {
            return Err(Fault::Malformed);
        };
        let kind = Kind::Else(ty, self.take(alloc, start)?);
        self.stack.push(Frame { start, kind })?;
        self.nesting = self.nesting.max(self.stack.len());
        Ok(())
    }

    // Ends the sequence of this frame, which was the innermost. The sequence is dropped if it nests deeper than the
    // bound.
    fn end(&mut self, alloc: Global, frame: Frame, bound: u32) -> Result<(), AllocError>
        requires { frame.start ≤ length self.old.items.items }
        ensures { OnOk result (ClosesSequence self.old self.new frame bound) }
    {
        let Frame { start, kind } = frame;
        let instr = close(kind, self.take(alloc, start)?);
        self.nesting = self.nesting.max(self.stack.len() + 1);
        if self.nesting <= bound as usize {
            self.items.push(instr)?;
        }
        Ok(())
    }

    // The whole expression, behind its last token. Its code has no spare room.
    fn answer(mut self, alloc: Global, bound: u32) -> Result<Expr, AllocError>
        requires { self.nesting < 2 ^ 32 }
        ensures floats { self.floats ≡ true → IfOk result (λ e. e ≡ Expr.Floats) }
        ensures deep { self.floats ≡ false → bound < self.nesting → IfOk result (λ e. e ≡ Expr.Deep self.nesting) }
        ensures built { self.floats ≡ false → self.nesting ≤ bound → IfOk result (λ e. e ≡ Expr.Built (code_of self.items.items)) }
    {
        if self.floats {
            return Ok(Expr::Floats);
        }
        if self.nesting > bound as usize {
            let found = self.nesting as u32;
            return Ok(Expr::Deep { found });
        }
        self.items.shrink_to_fit();
        Ok(Expr::Built(Code::from_vec(alloc, self.items)?))
    }
}

/// Takes the expression at the front (5.4.6), of at most 268,435,456 bytes. `bound` is the greatest nesting that is
/// accepted, at most 1,002, because functions that drop or walk a tree recurse as deep as it nests.
///
/// One pass over the tokens with two stacks and no recursion. A sequence that nests deeper than the bound is dropped
/// when it closes, so no tree is ever deeper. `Malformed` takes precedence over `Floats`, and `Floats` over `Deep`.
/// After an `Err` the cursor may be anywhere.
pub fn read_expr(alloc: Global, cursor: &mut Cursor, bound: u32) -> Result<Expr, Fault>
    requires bytes { length cursor.now.left ≤ longest_file }
    requires bound { bound ≤ deepest }
    ensures ok { IfOk result (λ e. IsExprAnswer bound e cursor.old.left cursor.new.left) }
    ensures malformed { IsErrOf result Fault.Malformed → HasNoFront IsExpr cursor.old.left }
{
    let mut scan = Scan::new(alloc);
    loop {
        let token = next_token(alloc, cursor)?;
        match token {
            Read::Plain(instr) => scan.items.push(instr)?,
            Read::Float => scan.floats = true,
            Read::Opens(kind, floating) => scan.open(kind, floating)?,
            Read::Else => {
                let Some(frame) = scan.stack.pop() else {
                    return Err(Fault::Malformed);
                };
                scan.turn(alloc, frame)?;
            }
            Read::End => {
                let Some(frame) = scan.stack.pop() else {
                    return Ok(scan.answer(alloc, bound)?);
                };
                scan.end(alloc, frame, bound)?;
            }
        }
    }
}
