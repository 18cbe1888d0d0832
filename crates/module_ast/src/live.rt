// Which instructions leave the code behind them live.

ghost use Rattle.std.specs.Prelude.{◌≡◌};
ghost use Rattle.module_ast.specs.Structure.Plains.{goes_on_by};

use crate::code::Instr;

impl Instr {
    /// Whether the code behind the instruction, in the same sequence, can be live: not if it is `unreachable`, `br`,
    /// `br_table` or `return`. (Standard, 3.3.5)
    pub fn goes_on(&self) -> bool
        ensures { result ≡ goes_on_by self.now }
    {
        match self {
            Instr::Unreachable | Instr::Br(_) | Instr::BrTable(_, _) | Instr::Return => false,
            _ => true,
        }
    }
}
