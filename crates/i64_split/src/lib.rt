// Values as words of 32 bits, and the temporaries that keep operands.
#![tactic(auto)]

ghost use Rattle.std.specs.Prelude.{◌≡◌, ◌^◌, ◌<◌, ◌++◌, IfOk, OnOk};

mod pushing;
mod saving;
mod words;

pub use crate::pushing::{push_one, push_three, push_two};
pub use crate::saving::{push_gets, push_sets, save, save_in};
pub use crate::words::{push_value, push_values};
use module_ast::module::Group;
use std::alloc::{AllocError, Global};
use wasm_num::ValType;

/// The temporaries of a body: from local `base` on, first `ints` locals of type i32, then `longs` locals of type i64.
#[derive(Clone, Copy, PartialEq, Eq)]
pub struct Pool {
    pub base: u32,
    pub ints: u32,
    pub longs: u32,
}

/// A temporary: its type, and its index among the locals.
#[derive(Clone, Copy, PartialEq, Eq)]
pub struct Temp {
    pub ty: ValType,
    pub local: u32,
}

impl Pool {
    ghost use Rattle.i64_split.specs.Pushing.{AddsPrefix};
    ghost use Rattle.i64_split.specs.Split.{pool_local, pool_groups, temps_from, HasTemps};

    /// The index of the local that is temporary `k` of the type, counted from 0.
    pub fn local(&self, ty: ValType, k: u32) -> u32
        requires { pool_local self.now ty k < 2 ^ 32 }
        ensures { result ≡ pool_local self.now ty k }
    {
        match ty {
            ValType::I32 => self.base + k,
            ValType::I64 => self.base + self.ints + k,
        }
    }

    /// Temporaries of these types: the first i32 is temporary `skip` of its type, the first i64 temporary 0. An
    /// `AllocError` if memory runs out.
    #[tactic(auto, using(std::proofs::lemmas::Grind::common_steps))]
    pub fn temps(
        &self,
        alloc: Global,
        types: &[ValType],
        skip: u32,
    ) -> Result<Vec<Temp>, AllocError>
        requires { HasTemps self.now skip types.now }
        ensures { IfOk result (λ temps. temps.items ≡ temps_from self.now skip 0 types.now) }
    {
        let mut temps = Vec::with_capacity(alloc, types.len())?;
        let mut ints = skip;
        let mut longs = 0;
        for ty in types {
            match ty {
                ValType::I32 => {
                    let local = self.local(*ty, ints);
                    temps.push(Temp { ty: *ty, local })?;
                    ints += 1;
                }
                ValType::I64 => {
                    let local = self.local(*ty, longs);
                    temps.push(Temp { ty: *ty, local })?;
                    longs += 1;
                }
            }
        }
        Ok(temps)
    }

    /// Appends the groups of locals that the temporaries are: those of type i32, then those of type i64. A group of no
    /// locals is left out. An `AllocError` if memory runs out; the first group may then have been appended.
    pub fn push_groups(&self, groups: &mut Vec<Group>) -> Result<(), AllocError>
        ensures added { OnOk result (groups.new.items ≡ groups.old.items ++ pool_groups self.now) }
        ensures prefix { AddsPrefix groups.old.items groups.new.items (pool_groups self.now) }
    {
        if self.ints > 0 {
            groups.push(Group {
                count: self.ints,
                ty: ValType::I32,
            })?;
        }
        if self.longs > 0 {
            groups.push(Group {
                count: self.longs,
                ty: ValType::I64,
            })?;
        }
        Ok(())
    }
}
