// Copies of code in which calls name functions of the output.

ghost use Rattle.std.specs.Prelude.{◌≡◌, IfOk};
ghost use Rattle.module_ast.specs.Structure.{Tree, done, before, code_of};
ghost use Rattle.index_remap.specs.Remap.{map_tree, Maps};

use crate::Remap;
use module_ast::code::{Code, Instr};
use module_ast::labels::Labels;
use std::alloc::{AllocError, Global};

impl Remap {
    /// A copy of the code, in which each call names a function of the output, in dead code too. An `AllocError` if
    /// memory runs out. Recurses as deep as the code nests.
    #[cycle(map)]
    pub fn map_code(&self, alloc: Global, code: &Code) -> Result<Code, AllocError>
        requires { Maps self.now code.now }
        ensures { IfOk result (λ copy. copy ≡ map_tree self.now code.now) }
    {
        let items = self.map_body(alloc, code.as_slice())?;
        Code::from_vec(alloc, items)
    }

    /// A copy of these instructions, as `map_code` makes it.
    #[cycle(map)]
    #[tactic(auto, using(module_ast::specs::Structure::Seen::onto_push))]
    pub fn map_body(&self, alloc: Global, code: &[Instr]) -> Result<Vec<Instr>, AllocError>
        requires { Maps self.now (code_of code.now) }
        ensures { IfOk result (λ copy. code_of copy.items ≡ map_tree self.now (code_of code.now)) }
    {
        let mut items = Vec::with_capacity(alloc, code.len())?;
        for instr in code {
            items.push(self.map_instr(alloc, instr)?)?;
        }
        Ok(items)
    }

    /// A copy of the instruction, as `map_code` makes it.
    #[cycle(map)]
    pub fn map_instr(&self, alloc: Global, instr: &Instr) -> Result<Instr, AllocError>
        requires { Maps self.now (before instr.now done) }
        ensures { IfOk result (λ copy. (t : Tree) → before copy (map_tree self.now t) ≡ map_tree self.now (before instr.now t)) }
    {
        match instr {
            Instr::Unreachable => Ok(Instr::Unreachable),
            Instr::Nop => Ok(Instr::Nop),
            Instr::Block(ty, body) => Ok(Instr::Block(*ty, self.map_code(alloc, body)?)),
            Instr::Loop(ty, body) => Ok(Instr::Loop(*ty, self.map_code(alloc, body)?)),
            Instr::If(ty, body) => Ok(Instr::If(*ty, self.map_code(alloc, body)?)),
            Instr::IfElse(ty, body, other) => {
                let body = self.map_code(alloc, body)?;
                Ok(Instr::IfElse(*ty, body, self.map_code(alloc, other)?))
            }
            Instr::Br(label) => Ok(Instr::Br(*label)),
            Instr::BrIf(label) => Ok(Instr::BrIf(*label)),
            Instr::BrTable(labels, last) => {
                let labels = Labels::from_vec(alloc, Vec::from_slice(alloc, labels.as_slice())?)?;
                Ok(Instr::BrTable(labels, *last))
            }
            Instr::Return => Ok(Instr::Return),
            Instr::Call(func) => Ok(Instr::Call(self.map(*func))),
            Instr::CallIndirect(ty) => Ok(Instr::CallIndirect(*ty)),
            Instr::Drop => Ok(Instr::Drop),
            Instr::Select => Ok(Instr::Select),
            Instr::LocalGet(local) => Ok(Instr::LocalGet(*local)),
            Instr::LocalSet(local) => Ok(Instr::LocalSet(*local)),
            Instr::LocalTee(local) => Ok(Instr::LocalTee(*local)),
            Instr::GlobalGet(global) => Ok(Instr::GlobalGet(*global)),
            Instr::GlobalSet(global) => Ok(Instr::GlobalSet(*global)),
            Instr::Load(op, arg) => Ok(Instr::Load(*op, *arg)),
            Instr::Store(op, arg) => Ok(Instr::Store(*op, *arg)),
            Instr::MemorySize => Ok(Instr::MemorySize),
            Instr::MemoryGrow => Ok(Instr::MemoryGrow),
            Instr::I32Const(value) => Ok(Instr::I32Const(*value)),
            Instr::I64Const(value) => Ok(Instr::I64Const(*value)),
            Instr::Num(op) => Ok(Instr::Num(*op)),
        }
    }
}
