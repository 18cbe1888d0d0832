// The locals of a function.

ghost use Rattle.std.specs.Prelude.{◌≡◌};

use module_ast::module::Group;
use std::alloc::Global;
use std::marker::Model;
use wasm_num::{NoMemory, ValType};

// Some locals of one type, and how many locals there are up to the last of them.
#[derive(Clone, Copy)]
struct Run {
    end: u64,
    ty: ValType,
}

/// The types of a function's locals: its parameters first, then each group that its body lists. Contracts see a list,
/// but one entry is kept for each parameter and group, because a group of a few bytes may declare up to 2^32 locals.
/// (Standard, 2.5.3)
#[derive(Drop)]
pub struct Locals {
    runs: Vec<Run>,
}

impl Model for Locals {
    ghost use Rattle.std.specs.Prelude.{List};
    ghost use Rattle.wasm_num.specs.declared.ValType.{ValType as types};
    ghost use Rattle.code_valid.specs.Locals.{types_from, RiseFrom};

    ghost Value = { List types };

    ghost view = { λ a. types_from 0 a.runs.items };

    ghost invariant = { λ a. RiseFrom 0 a.runs.items };
}

impl Locals {
    ghost use Rattle.std.specs.Prelude.{◌++◌, ◌^◌, ◌<◌, IfOk, length, slice_get};
    ghost use Rattle.module_ast.specs.Binary.{locals_of};
    ghost use Rattle.module_ast.specs.Validation.{declared_locals};

    /// The locals of a function with these parameters, whose body lists these groups. `NoMemory` if memory runs out.
    pub fn new(alloc: Global, params: &[ValType], groups: &[Group]) -> Result<Locals, NoMemory>
        requires { locals_of groups.now < 2 ^ 32 }
        ensures { IfOk result (λ l. l ≡ params.now ++ declared_locals groups.now) }
    {
        let mut runs = Vec::new(alloc);
        let mut end = 0_u64;
        for ty in params {
            end += 1;
            runs.push(Run { end, ty: *ty })?;
        }
        for group in groups {
            end += group.count as u64;
            runs.push(Run { end, ty: group.ty })?;
        }
        Ok(Locals { runs })
    }

    /// How many locals there are, parameters included.
    pub fn count(&self) -> u64
        ensures { result ≡ length self.now }
    {
        match self.runs.last() {
            Some(run) => run.end,
            None => 0,
        }
    }

    /// The type of a local; `None` if there is no such local. Takes time logarithmic in the number of parameters and
    /// groups.
    pub fn get(&self, index: u32) -> Option<ValType>
        ensures { result ≡ slice_get self.now index }
    {
        let index = index as u64;
        let runs = self.runs.as_slice();
        let before = runs.partition_point(|run| run.end <= index);
        runs.get(before).map(|run| run.ty)
    }
}
