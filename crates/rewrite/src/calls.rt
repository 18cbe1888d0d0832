// Live calls.

ghost use Rattle.std.specs.Prelude.{◌≡◌, ◌++◌, ◌∷◌, [], pos, OnOk, IfOk, ◌<◌, ◌^◌, List};
ghost use Rattle.wasm_num.specs.declared.ValType.TheVariants.{I32};
ghost use Rattle.module_ast.specs.Structure.Trees as tree;
ghost use Rattle.module_ast.specs.Places.{Scope};
ghost use Rattle.hook_mono.specs.declared.HookKey.TheVariants as keys;
ghost use Rattle.i64_split.specs.Split.{HasTemps, temps};
ghost use Rattle.i64_split.specs.Pushing.{instrs};
ghost use Rattle.index_remap.specs.Remap.{MapsIndex};
ghost use Rattle.rewrite.specs.Setting.{remap, constant};
ghost use Rattle.rewrite_needs.specs.Temporaries.{plain_temps, wanted_temps};
ghost use Rattle.rewrite.specs.Templates.{template, tell_values, post_code, call_code, indirect_code};
ghost use Rattle.rewrite.specs.Emitted.{HasRoom, indirect_template};

use crate::setting::Setting;
use crate::templates::list;
use hook_mono::HookKey;
use hook_select::GroupName;
use i64_split::{Temp, push_one, push_two, save_in};
use module_ast::code::Instr;
use std::alloc::{AllocError, Global};
use wasm_num::ValType;

impl<'m> Setting<'m> {
    // Adds the hook call after a call, which tells the results.
    fn push_post(
        &self,
        alloc: Global,
        position: u32,
        results: &[ValType],
        code: &mut Vec<Instr>,
    ) -> Result<(), AllocError>
        requires low { position < 2 ^ 31 }
        requires room { HasTemps self.now.pool 0 results.now }
        ensures { OnOk result (code.new.items ≡ code.old.items ++ instrs (post_code self.now position results.now)) }
    {
        let key = HookKey::CallPost(list(alloc, results)?);
        self.push_saved(alloc, position as i32, &key, &[], results, code)
    }

    // Adds the hook call before a call, which tells the function and the arguments.
    fn push_pre(
        &self,
        alloc: Global,
        position: u32,
        func: u32,
        params: &[ValType],
        code: &mut Vec<Instr>,
    ) -> Result<(), AllocError>
        requires low { position < 2 ^ 31 }
        requires room { HasTemps self.now.pool 0 params.now }
        ensures { OnOk result (code.new.items ≡ code.old.items ++ instrs (tell_values self.now (pos position) (keys.CallPre params.now) (constant func ∷ []) (temps self.now.pool params.now))) }
    {
        let key = HookKey::CallPre(list(alloc, params)?);
        self.push_saved(alloc, position as i32, &key, &[func], params, code)
    }

    // Adds the call of a function that has these parameters and results.
    fn push_called(
        &self,
        alloc: Global,
        func: u32,
        params: &[ValType],
        results: &[ValType],
        position: u32,
        code: &mut Vec<Instr>,
    ) -> Result<(), AllocError>
        requires low { position < 2 ^ 31 }
        requires room { HasRoom self.now.pool (wanted_temps self.now.hooks (keys.CallPre params.now) params.now ++ wanted_temps self.now.hooks (keys.CallPost results.now) results.now) }
        requires maps { MapsIndex (remap self.now) func }
        ensures { OnOk result (code.new.items ≡ code.old.items ++ instrs (call_code self.now position func (record { params = params.now; results = results.now }))) }
    {
        let made = self.remap.map(func);
        if !self.has(GroupName::Call) {
            return push_one(code, Instr::Call(made));
        }
        self.push_pre(alloc, position, func, params, code)?;
        push_one(code, Instr::Call(made))?;
        self.push_post(alloc, position, results, code)
    }

    /// Adds a live call by its template. Its function is remapped. If calls are selected, a hook call before it tells the
    /// arguments, and one after it the results. An `Err` comes if there is no memory.
    pub(crate) fn push_call_of(
        &self,
        alloc: Global,
        func: u32,
        position: u32,
        code: &mut Vec<Instr>,
    ) -> Result<(), AllocError>
        requires low { position < 2 ^ 31 }
        requires room { HasRoom self.now.pool (plain_temps self.now.hooks self.now.site position (tree.call func)) }
        requires maps { MapsIndex (remap self.now) func }
        ensures { (ss : List Scope) → OnOk result (code.new.items ≡ code.old.items ++ instrs (template self.now ss position (tree.call func))) }
    {
        let (params, results) = self.site.callee_type(func);
        self.push_called(alloc, func, params, results, position, code)
    }

    // Adds the call through the table of a function that has these parameters and results.
    fn push_called_indirect(
        &self,
        alloc: Global,
        ty: u32,
        params: &[ValType],
        results: &[ValType],
        position: u32,
        code: &mut Vec<Instr>,
    ) -> Result<(), AllocError>
        requires low { position < 2 ^ 31 }
        requires room { HasRoom self.now.pool (wanted_temps self.now.hooks (keys.IndirectPre params.now) (I32 ∷ params.now) ++ wanted_temps self.now.hooks (keys.CallPost results.now) results.now) }
        ensures { OnOk result (code.new.items ≡ code.old.items ++ instrs (indirect_template self.now position ty (record { params = params.now; results = results.now }))) }
    {
        if !self.has(GroupName::Call) {
            return push_one(code, Instr::CallIndirect(ty));
        }
        let types = with_slot(alloc, params)?;
        let temps = self.pool.temps(alloc, &types, 0)?;
        self.push_indirect(alloc, ty, params, results, &temps, position, code)
    }

    // The same with these temporaries. The index of the slot goes into the first, and the arguments go into those after it.
    fn push_indirect(
        &self,
        alloc: Global,
        ty: u32,
        params: &[ValType],
        results: &[ValType],
        temps: &[Temp],
        position: u32,
        code: &mut Vec<Instr>,
    ) -> Result<(), AllocError>
        requires low { position < 2 ^ 31 }
        requires room { HasTemps self.now.pool 0 results.now }
        ensures { OnOk result (code.new.items ≡ code.old.items ++ instrs (indirect_code self.now position ty (record { params = params.now; results = results.now }) temps.now)) }
    {
        match temps {
            [slot, args @ ..] => self.push_in_slot(
                alloc, ty, params, results, temps, *slot, args, position, code,
            ),
            [] => push_one(code, Instr::CallIndirect(ty)),
        }
    }

    // The same with a temporary for the index of the slot, and those for the arguments.
    fn push_in_slot(
        &self,
        alloc: Global,
        ty: u32,
        params: &[ValType],
        results: &[ValType],
        temps: &[Temp],
        slot: Temp,
        args: &[Temp],
        position: u32,
        code: &mut Vec<Instr>,
    ) -> Result<(), AllocError>
        requires low { position < 2 ^ 31 }
        requires room { HasTemps self.now.pool 0 results.now }
        requires all { temps.now ≡ slot ∷ args.now }
        ensures { OnOk result (code.new.items ≡ code.old.items ++ instrs (indirect_code self.now position ty (record { params = params.now; results = results.now }) (slot ∷ args.now))) }
    {
        push_one(code, Instr::LocalSet(slot.local))?;
        save_in(code, args)?;
        let types = list(alloc, params)?;
        let key = HookKey::IndirectPre(types);
        self.push_tell(position as i32, &key, &[ty], temps, code)?;
        push_two(code, Instr::LocalGet(slot.local), Instr::CallIndirect(ty))?;
        self.push_post(alloc, position, results, code)
    }

    /// Adds a live call through the table by its template. If calls are selected, a hook call before it tells the slot and the
    /// arguments, and one after it the results. An `Err` comes if there is no memory.
    pub(crate) fn push_indirect_of(
        &self,
        alloc: Global,
        ty: u32,
        position: u32,
        code: &mut Vec<Instr>,
    ) -> Result<(), AllocError>
        requires low { position < 2 ^ 31 }
        requires room { HasRoom self.now.pool (plain_temps self.now.hooks self.now.site position (tree.call_indirect ty)) }
        ensures { (ss : List Scope) → OnOk result (code.new.items ≡ code.old.items ++ instrs (template self.now ss position (tree.call_indirect ty))) }
    {
        let (params, results) = self.site.indirect_type(ty);
        self.push_called_indirect(alloc, ty, params, results, position, code)
    }
}

// An i32 for the index of the slot, and the parameters after it.
fn with_slot(alloc: Global, params: &[ValType]) -> Result<Vec<ValType>, AllocError>
    ensures { IfOk result (λ types. types.items ≡ I32 ∷ params.now) }
{
    let mut types = Vec::with_capacity(alloc, params.len() + 1)?;
    types.push(ValType::I32)?;
    types.extend_from_slice(params)?;
    Ok(types)
}
