// Objects with fixed keys.

ghost use Rattle.std.specs.Prelude.{◌≡◌, [], map, IfOk, IfErr, Some, None};
ghost use Rattle.serde_json.specs.Find.{get};
ghost use Rattle.serde_json.specs.View.{view, members_view};
ghost use Rattle.json_form.specs.Form.{ReadsForm, is_key_among, only_members, has_only, only_keys, field_or, list_form};

use crate::form::{Form, FormFault, read_list};
use module_ast::seq::Seq;
use serde_json::{Map, Value};
use std::alloc::Global;

/// Refuses, as `Wrong`, a value that is anything but an object whose keys are all among `names`.
pub fn check_keys(names: &[&str], value: &Value) -> Result<(), FormFault>
    ensures { ReadsForm result (only_keys (map (λ n. n.now) names.now) (view value.now)) }
{
    if has_only(names, value) {
        Ok(())
    } else {
        Err(FormFault::Wrong)
    }
}

/// Whether the value is an object whose keys are all among `names`.
pub fn has_only(names: &[&str], value: &Value) -> bool
    ensures { result ≡ has_only (map (λ n. n.now) names.now) (view value.now) }
{
    value
        .as_object()
        .is_some_and(|members| only_members(names, members))
}

fn only_members(names: &[&str], members: &Map<String, Value>) -> bool
    ensures { result
        ≡ only_members (map (λ n. n.now) names.now) (members_view members.now.entries) }
{
    for (key, _) in members.iter() {
        if !is_key_among(names, key.as_str()) {
            return false;
        }
    }
    true
}

fn is_key_among(names: &[&str], key: &str) -> bool
    ensures { result ≡ is_key_among (map (λ n. n.now) names.now) key.now }
{
    names.contains(&key)
}

/// The value that an object has at `key`. `Wrong` if there is no such key, or if the value is no object.
pub fn field<'v>(value: &'v Value, key: &str) -> Result<&'v Value, FormFault>
    ensures found { IfOk result (λ v. get key.now (view value.now) ≡ Some (view v.now)) }
    ensures missing { IfErr result (λ e. (e ≡ FormFault.Wrong)
        × (get key.now (view value.now) ≡ None)) }
{
    value.get(key).ok_or(FormFault::Wrong)
}

/// Reads the list that the object has at `key`; the empty list if there is no such key. `Wrong` if the value there is
/// no list of the form.
pub fn read_list_or_empty<F: Form>(
    alloc: Global,
    value: &Value,
    key: &str,
) -> Result<Seq<F::Out>, FormFault>
    ensures { ReadsForm result (field_or key.now [] (list_form F.form) (view value.now)) }
{
    match value.get(key) {
        Some(found) => read_list::<F>(alloc, found),
        None => Ok(Seq::from_vec(Vec::new(alloc))),
    }
}
