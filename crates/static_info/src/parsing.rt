// Reads information from JSON.

ghost use Rattle.std.specs.Prelude.{◌≡◌, ◌↔◌, ◌^◌, ◌<◌, map, length, IfOk, IsErrOf, IsTrue};
ghost use Rattle.serde_json.specs.View.{view, members_view};
ghost use Rattle.json_form.specs.Form.{ReadsForm, given_if};
ghost use Rattle.json_form.specs.Text.{IsNoText};
ghost use Rattle.static_info.specs.declared.Info.{Info as InfoSpec};
ghost use Rattle.static_info.specs.Checks.{AreFunctions};
ghost use Rattle.static_info.specs.Json.{IsInfo, HoldInfo, HoldNoInfo};
ghost use Rattle.static_info.specs.Shape.{keys_of, same_names, has_exactly, info_keys, info_shape};

use crate::Info;
use crate::checks::are_functions;
use crate::forms::{FuncForm, read_groups, read_hooks};
use json_form::{FormFault, Text, TextFault, field, read_count, read_list, read_text};
use serde_json::{Map, Value};
use std::alloc::Global;

/// Why no information is read from bytes.
#[derive(Clone, Copy, Debug, PartialEq, Eq)]
pub enum InfoFault {
    /// The bytes are no JSON text, or its value nests more than 127 deep.
    NotJson,
    /// The bytes are a JSON text, but its value is not that of any information.
    NotInfo,
    /// Memory ran out.
    NoMemory,
}

impl From<TextFault> for InfoFault {
    ghost use Rattle.static_info.specs.Faults.{text_info_fault};

    ghost from_gives = { λ fault e. e ≡ text_info_fault fault };

    fn from(fault: TextFault) -> InfoFault {
        match fault {
            TextFault::NotJson => InfoFault::NotJson,
            TextFault::NoMemory => InfoFault::NoMemory,
        }
    }
}

impl From<FormFault> for InfoFault {
    ghost use Rattle.static_info.specs.Faults.{form_info_fault};

    ghost from_gives = { λ fault e. e ≡ form_info_fault fault };

    fn from(fault: FormFault) -> InfoFault {
        match fault {
            FormFault::Wrong => InfoFault::NotInfo,
            FormFault::NoMemory => InfoFault::NoMemory,
        }
    }
}

// Whether the members have exactly these keys. Members are in the order of their keys, and `names` must be too.
fn are_keys(names: &[&str], members: &Map<String, Value>) -> bool
    ensures { result ≡ same_names (map (λ n. n.now) names.now) (keys_of (members_view members.now.entries)) }
{
    let mut place = 0;
    for (key, _) in members.iter() {
        if place == names.len() {
            return false;
        }
        if names[place] != key.as_str() {
            return false;
        }
        place += 1;
    }
    place == names.len()
}

// Whether the value is an object with exactly these keys, which must be in order.
fn has_exactly(names: &[&str], value: &Value) -> bool
    ensures { result ≡ has_exactly (map (λ n. n.now) names.now) (view value.now) }
{
    value
        .as_object()
        .is_some_and(|members| are_keys(names, members))
}

// `Wrong` if the value is not an object with exactly the keys of information.
fn check_info_keys(value: &Value) -> Result<(), FormFault>
    ensures { ReadsForm result (given_if (has_exactly info_keys (view value.now)) (tt {0})) }
{
    let names = [
        "dropped",
        "functions",
        "groups",
        "hooks",
        "imports",
        "version",
    ];
    if has_exactly(&names, value) {
        Ok(())
    } else {
        Err(FormFault::Wrong)
    }
}

// Reads information from a value, but does not yet check its functions as `are_functions` does.
fn read_shape(alloc: Global, value: &Value) -> Result<Info, FormFault>
    ensures { ReadsForm result (info_shape (view value.now)) }
{
    check_info_keys(value)?;
    let _version = read_count(field(value, "version")?, 1, 1)?;
    let imports = read_count(field(value, "imports")?, 0, u32::MAX as u64)? as u32;
    let groups = read_groups(alloc, field(value, "groups")?)?;
    let hooks = read_hooks(alloc, field(value, "hooks")?)?;
    let functions = read_list::<FuncForm>(alloc, field(value, "functions")?)?;
    let dropped = read_list::<Text>(alloc, field(value, "dropped")?)?;
    Ok(Info {
        groups,
        imports,
        hooks,
        functions,
        dropped,
    })
}

// Reads information from a value. `Wrong` exactly if the value is not that of any information.
fn read_info(alloc: Global, value: &Value) -> Result<Info, FormFault>
    ensures ok { IfOk result (λ info. IsInfo (view value.now) info) }
    ensures wrong { IsErrOf result FormFault.Wrong → (info : InfoSpec) → IsInfo (view value.now) info → ⊥ }
{
    match read_shape(alloc, value) {
        Ok(info) if are_functions(info.imports, info.functions.as_slice()) => Ok(info),
        Ok(_) => Err(FormFault::Wrong),
        Err(fault) => Err(fault),
    }
}

/// The information that these bytes hold as JSON: an object with exactly the keys of information, each with a value of its
/// form. If a key is repeated, its last value counts. The order of the keys does not matter.
///
/// Unless memory runs out, `NotJson` comes exactly if the bytes are no JSON text or its value nests more than 127 deep, and
/// `NotInfo` exactly if they are the text of any other value. `NoMemory` if memory runs out.
pub fn from_json(alloc: Global, bytes: &[u8]) -> Result<Info, InfoFault>
    ensures ok { IfOk result (λ info. HoldInfo bytes.now info) }
    ensures not_json { IsErrOf result InfoFault.NotJson → IsNoText bytes.now }
    ensures not_info { IsErrOf result InfoFault.NotInfo → HoldNoInfo bytes.now }
{
    let value = read_text(alloc, bytes)?;
    Ok(read_info(alloc, &value)?)
}
