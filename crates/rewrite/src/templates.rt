// Parts of templates that tell values.

ghost use Rattle.std.specs.Prelude.{◌≡◌, ◌++◌, ◌∷◌, [], map, OnOk, IfOk};
ghost use Rattle.wasm_num.specs.declared.ValType.TheVariants.{I32};
ghost use Rattle.module_ast.specs.Lists.{when};
ghost use Rattle.hook_mono.specs.declared.HookKey.TheVariants as keys;
ghost use Rattle.i64_split.specs.Split.{temps, words_code, HasTemps};
ghost use Rattle.i64_split.specs.Pushing.{instrs};
ghost use Rattle.rewrite.specs.Setting.{constant, tell};
ghost use Rattle.rewrite_needs.specs.Temporaries.{wanted_temps};
ghost use Rattle.rewrite.specs.Templates.{tee_code, tell_values, tell_results};
ghost use Rattle.rewrite.specs.Emitted.{HasRoom};

use crate::setting::Setting;
use hook_mono::HookKey;
use hook_select::GroupName;
use i64_split::{Temp, push_one, save_in};
use module_ast::code::Instr;
use module_ast::seq::Seq;
use std::alloc::{AllocError, Global};
use wasm_num::ValType;

// A list of these types.
pub(crate) fn list(alloc: Global, types: &[ValType]) -> Result<Seq<ValType>, AllocError>
    ensures { IfOk result (λ list. list ≡ types.now) }
{
    Ok(Seq::from_vec(types.to_vec(alloc)?))
}

impl<'m> Setting<'m> {
    /// Adds the code that keeps operands of these types in temporaries, and the hook call that tells them after these
    /// constants. An `Err` comes if there is no memory.
    pub(crate) fn push_saved(
        &self,
        alloc: Global,
        position: i32,
        key: &HookKey,
        first: &[u32],
        types: &[ValType],
        code: &mut Vec<Instr>,
    ) -> Result<(), AllocError>
        requires { HasTemps self.now.pool 0 types.now }
        ensures { OnOk result (code.new.items ≡ code.old.items ++ instrs (tell_values self.now position key.now (map constant first.now) (temps self.now.pool types.now))) }
    {
        let temps = self.pool.temps(alloc, types, 0)?;
        save_in(code, &temps)?;
        self.push_tell(position, key, first, &temps, code)
    }

    /// Adds the hook call that tells the condition or index on top of the operand stack, if `wanted`. The operand stays there.
    /// An `Err` comes if there is no memory.
    pub fn push_tell_before(
        &self,
        position: i32,
        group: GroupName,
        wanted: bool,
        code: &mut Vec<Instr>,
    ) -> Result<(), AllocError>
        requires { HasRoom self.now.pool (when wanted ((I32 ∷ []) ∷ [])) }
        ensures { let ts = temps self.now.pool (I32 ∷ []) in OnOk result (code.new.items ≡ code.old.items ++ instrs (when wanted (tee_code ts ++ tell self.now position (keys.Plain group) (words_code ts)))) }
    {
        if !wanted {
            return Ok(());
        }
        let temps = self.one_temp(ValType::I32);
        push_tee(&temps, code)?;
        self.push_tell(position, &HookKey::Plain(group), &[], &temps, code)
    }

    /// Adds the hook call that tells the results of the function, if returns are selected. An `Err` comes if there is no
    /// memory.
    pub fn push_results(
        &self,
        alloc: Global,
        position: i32,
        code: &mut Vec<Instr>,
    ) -> Result<(), AllocError>
        requires { let ts = self.now.site.context.results in HasRoom self.now.pool (wanted_temps self.now.hooks (keys.Return ts) ts) }
        ensures { OnOk result (code.new.items ≡ code.old.items ++ instrs (tell_results self.now position)) }
    {
        if !self.has(GroupName::Return) {
            return Ok(());
        }
        let results = self.site.results();
        let key = HookKey::Return(list(alloc, results)?);
        self.push_saved(alloc, position, &key, &[], results, code)
    }
}

/// Adds the code that leaves the top operand on the operand stack and in the temporary too: a `local.tee` if there is one
/// temporary, and nothing otherwise. An `Err` comes if there is no memory.
pub fn push_tee(temps: &[Temp], code: &mut Vec<Instr>) -> Result<(), AllocError>
    ensures { OnOk result (code.new.items ≡ code.old.items ++ instrs (tee_code temps.now)) }
{
    match temps {
        [a] => push_one(code, Instr::LocalTee(a.local)),
        _ => Ok(()),
    }
}
