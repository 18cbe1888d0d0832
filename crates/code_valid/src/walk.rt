// What the check notes on its way through a body.

ghost use Rattle.std.specs.Prelude.{◌≡◌, ◌+◌, ◌^◌, ◌<◌, IfOk};
ghost use Rattle.code_valid.specs.Survey.{see, over, out_to, at_start};
ghost use Rattle.code_valid.specs.Acting.{pass};

use crate::marks::Mark;
use std::alloc::Global;
use std::marker::Model;
use wasm_num::{NoMemory, ValType};

/// The marks and the greatest height so far, the position, and whether the code there is live.
#[derive(Drop)]
pub(crate) struct Walk {
    marks: Vec<Mark>,
    height: u64,
    live: bool,
    position: u32,
}

impl Model for Walk {
    ghost use Rattle.code_valid.specs.Survey.{Notes};

    ghost Value = { Notes };

    ghost view = { λ a. record { marks = a.marks.items; height = a.height; live = a.live; position = a.position } };
}

impl Walk {
    /// The state at the first instruction of a body. Allocates nothing.
    pub fn new(alloc: Global) -> Walk
        ensures { result ≡ at_start }
    {
        Walk {
            marks: Vec::new(alloc),
            height: 0,
            live: true,
            position: 0,
        }
    }

    /// Whether code is live here.
    pub fn is_live(&self) -> bool
        ensures { result ≡ self.now.live }
    {
        self.live
    }

    /// Notes that there are `operands` operands here.
    pub fn see(&mut self, operands: usize)
        ensures { self.new ≡ see operands self.old }
    {
        let operands = operands as u64;
        if self.live && self.height < operands {
            self.height = operands;
        }
    }

    /// Goes past an opcode.
    pub fn over(&mut self)
        requires { self.old.position + 1 < 2 ^ 32 }
        ensures { self.new ≡ over self.old }
    {
        self.position += 1;
    }

    /// Goes past the end of a block. `live` says whether the code behind the block is live, as it was before the block.
    pub fn out_to(&mut self, live: bool)
        requires { self.old.position + 1 < 2 ^ 32 }
        ensures { self.new ≡ out_to live self.old }
    {
        self.live = live;
        self.position += 1;
    }

    /// Goes past an instruction without a nested sequence, and notes `ty` as its mark if there is one. An unknown type
    /// is never noted.
    pub fn pass(&mut self, ty: Option<ValType>, goes_on: bool) -> Result<(), NoMemory>
        requires { self.old.position + 1 < 2 ^ 32 }
        ensures { IfOk result (λ _. self.new ≡ pass ty goes_on self.old) }
    {
        if self.live {
            if let Some(ty) = ty {
                let pos = self.position;
                self.marks.push(Mark { pos, ty })?;
            }
        }
        self.live = self.live && goes_on;
        self.position += 1;
        Ok(())
    }

    /// The marks in rising order, and the height.
    pub fn finish(self) -> (Vec<Mark>, u64)
        ensures marks { result.0.items ≡ self.marks }
        ensures height { result.1 ≡ self.height }
    {
        (self.marks, self.height)
    }
}
