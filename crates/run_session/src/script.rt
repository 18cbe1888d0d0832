// Scripts in JSON.

ghost use Rattle.std.specs.Prelude.{◌≡◌, [], ℕ, IfOk, IsErrOf, Ok, Err};
ghost use Rattle.serde_json.specs.Data.{Data};
ghost use Rattle.serde_json.specs.View.{view};
ghost use Rattle.json_form.specs.Form.{count_form, list_form, field_or};
ghost use Rattle.json_form.specs.Text.{IsText, IsNoText};
ghost use Rattle.wasm_sem.specs.Execution.{IsScriptInRange};
ghost use Rattle.run_session.specs.Script.{ReadsPart, part, fault_at, has_script_keys, keys_part, calls_part, script_form};

use crate::forms::{AnswerForm, CallForm};
use json_form::{
    Form, FormFault, Integer, TextFault, field, has_only, read_count, read_list,
    read_list_or_empty, read_text,
};
use module_ast::seq::Seq;
use serde_json::Value;
use std::alloc::Global;
use wasm_sem::{Call, Script};

/// Why bytes are no script.
#[derive(Clone, Copy, Debug, PartialEq, Eq)]
pub enum ScriptFault {
    /// The bytes are no value of JSON.
    NotJson,
    /// The bytes are a value of JSON, but no script. `place` is the first part that is wrong: 1 for the keys, 2 for
    /// `calls`, 3 for `host`, 4 for `globals`, 5 for `pages`, 6 for `depth` and 7 for `steps`.
    NotScript { place: u8 },
    /// Memory ran out.
    NoMemory,
}

impl From<TextFault> for ScriptFault {
    ghost use Rattle.run_session.specs.Script.{text_fault};

    ghost from_gives = { λ fault e. e ≡ text_fault fault };

    fn from(fault: TextFault) -> ScriptFault {
        match fault {
            TextFault::NotJson => ScriptFault::NotJson,
            TextFault::NoMemory => ScriptFault::NoMemory,
        }
    }
}

/// The script that these bytes are. If a key of an object is repeated, its last value counts.
///
/// Each answer except `NoMemory` says what the bytes are, and no two of these answers are true of the same bytes.
pub fn read_script(alloc: Global, bytes: &[u8]) -> Result<Script, ScriptFault>
    ensures ok { IfOk result (λ s. (d : Data) × IsText bytes.now d × (script_form d ≡ Ok s)) }
    ensures in_range { IfOk result IsScriptInRange }
    ensures not_json { IsErrOf result ScriptFault.NotJson → IsNoText bytes.now }
    ensures not_script { (place : ℕ) → IsErrOf result (ScriptFault.NotScript place)
        → (d : Data) × IsText bytes.now d × (script_form d ≡ Err place) }
{
    let value = read_text(alloc, bytes)?;
    script_of(alloc, &value)
}

// The script that a value of JSON is.
fn script_of(alloc: Global, value: &Value) -> Result<Script, ScriptFault>
    ensures { ReadsPart result (script_form (view value.now)) }
{
    check_parts(value)?;
    let calls = calls_of(alloc, value)?;
    let hosts = list_of::<AnswerForm>(alloc, value, "host", 3)?;
    let globals = list_of::<Integer>(alloc, value, "globals", 4)?;
    let pages = limit_of(value, "pages", 5, 0, 4_096, 1_024)? as u32;
    let depth = limit_of(value, "depth", 6, 1, 100_000, 10_000)? as u32;
    let steps = limit_of(value, "steps", 7, 1, 1_000_000_000_000, 10_000_000)?;
    Ok(Script {
        calls,
        hosts,
        globals,
        pages,
        depth,
        steps,
    })
}

// Refuses a value whose keys are not those of a script.
fn check_parts(value: &Value) -> Result<(), ScriptFault>
    ensures { ReadsPart result (keys_part (view value.now)) }
{
    if has_script_keys(value) {
        Ok(())
    } else {
        Err(ScriptFault::NotScript { place: 1 })
    }
}

// Whether the value is an object that has `calls`, and no keys but those of a script.
fn has_script_keys(value: &Value) -> bool
    ensures { result ≡ has_script_keys (view value.now) }
{
    let keys = ["calls", "host", "globals", "pages", "depth", "steps"];
    has_only(&keys, value) && value.get("calls").is_some()
}

fn calls_of(alloc: Global, value: &Value) -> Result<Seq<Call>, ScriptFault>
    ensures { ReadsPart result (calls_part (view value.now)) }
{
    match field(value, "calls") {
        Ok(calls) => read_list::<CallForm>(alloc, calls).map_err(|fault| fault_at(2, fault)),
        Err(fault) => Err(fault_at(2, fault)),
    }
}

// The list at a key that may be absent.
fn list_of<F: Form>(
    alloc: Global,
    value: &Value,
    key: &str,
    place: u8,
) -> Result<Seq<F::Out>, ScriptFault>
    ensures { ReadsPart result (part place (field_or key.now [] (list_form F.form) (view value.now))) }
{
    read_list_or_empty::<F>(alloc, value, key).map_err(|fault| fault_at(place, fault))
}

// The number at a key that may be absent.
fn limit_of(
    value: &Value,
    key: &str,
    place: u8,
    least: u64,
    most: u64,
    absent: u64,
) -> Result<u64, ScriptFault>
    ensures { ReadsPart result
        (part place (field_or key.now absent (count_form least most) (view value.now))) }
{
    match value.get(key) {
        Some(found) => read_count(found, least, most).map_err(|fault| fault_at(place, fault)),
        None => Ok(absent),
    }
}

// The fault of a script whose part at `place` has this fault.
fn fault_at(place: u8, fault: FormFault) -> ScriptFault
    ensures { result ≡ fault_at place fault }
{
    match fault {
        FormFault::Wrong => ScriptFault::NotScript { place },
        FormFault::NoMemory => ScriptFault::NoMemory,
    }
}
