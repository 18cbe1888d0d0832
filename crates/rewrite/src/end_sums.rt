// The bytes of the calls of end hooks, summed along the open blocks.

ghost use Rattle.std.specs.Prelude.{◌≡◌, ◌+◌, ◌-◌, ◌<◌, ◌^◌, ◌∷◌, [], length, drop, OnOk};
ghost use Rattle.module_ast.specs.Lists.{first_or};

use std::alloc::{AllocError, Global};
use std::marker::Model;

/// For each open block, how many bytes the calls of the end hooks have for it and for all blocks around it. A difference of two
/// sums then says what a branch costs, however many blocks it leaves. Contracts see a list that begins with the sum of the
/// innermost block.
#[derive(Drop)]
pub(crate) struct EndSums {
    sums: Vec<u64>,
}

impl Model for EndSums {
    ghost use Rattle.std.specs.Prelude.{List, ℕ, reverse};

    ghost Value = { List ℕ };

    ghost view = { λ a. reverse a.sums.items };
}

impl EndSums {
    /// No blocks.
    pub fn new(alloc: Global) -> EndSums
        ensures { result ≡ [] }
    {
        EndSums {
            sums: Vec::new(alloc),
        }
    }

    // The sum of the block that has `inside` open blocks inside it, or 0 if there is no such block.
    fn outward(&self, inside: usize) -> u64
        ensures { result ≡ first_or (drop inside self.now) 0 }
    {
        let sums = self.sums.as_slice();
        if inside >= sums.len() {
            return 0;
        }
        sums[sums.len() - 1 - inside]
    }

    /// How many bytes there are for the ends of all open blocks.
    pub fn all(&self) -> u64
        ensures { result ≡ first_or self.now 0 }
    {
        self.outward(0)
    }

    /// How many bytes there are for the ends of the blocks that a branch to this label leaves.
    pub fn left_by(&self, label: u32) -> u64
        ensures { result ≡ first_or self.now 0 - first_or (drop (label + 1) self.now) 0 }
    {
        self.all().saturating_sub(self.outward(label as usize + 1))
    }

    /// Enters a block whose own end takes this many bytes. An `Err` comes if there is no memory.
    pub fn enter(&mut self, length: u64) -> Result<(), AllocError>
        requires { length + first_or self.old 0 < 2 ^ 64 }
        ensures { OnOk result (self.new ≡ (length + first_or self.old 0) ∷ self.old) }
    {
        let sum = length + self.all();
        self.sums.push(sum)?;
        Ok(())
    }

    /// Leaves the innermost block.
    pub fn leave(&mut self)
        requires { 0 < length self.old }
        ensures { self.new ≡ drop 1 self.old }
    {
        let left = self.sums.len() - 1;
        self.sums.truncate(left);
    }
}
