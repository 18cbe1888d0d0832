// Lists of a fixed length.

ghost use Rattle.std.specs.Prelude.{◌≡◌, IfOk, IfErr, Some, None};
ghost use Rattle.serde_json.specs.Find.{at};
ghost use Rattle.serde_json.specs.View.{view};
ghost use Rattle.json_form.specs.Form.{ReadsForm, has_length, only_length};

use crate::form::FormFault;
use serde_json::Value;

/// Whether the value is a list of `count` items.
pub fn has_length(count: usize, value: &Value) -> bool
    ensures { result ≡ has_length count (view value.now) }
{
    match value.as_array() {
        Some(items) => items.len() == count,
        None => false,
    }
}

/// Refuses, as `Wrong`, a value that is anything but a list of `count` items.
pub fn check_length(count: usize, value: &Value) -> Result<(), FormFault>
    ensures { ReadsForm result (only_length count (view value.now)) }
{
    if has_length(count, value) {
        Ok(())
    } else {
        Err(FormFault::Wrong)
    }
}

/// The item of a list at `place`, counted from 0. `Wrong` if there is no such item, or if the value is no list.
pub fn item(value: &Value, place: usize) -> Result<&Value, FormFault>
    ensures found { IfOk result (λ v. at place (view value.now) ≡ Some (view v.now)) }
    ensures missing { IfErr result (λ e. (e ≡ FormFault.Wrong)
        × (at place (view value.now) ≡ None)) }
{
    value.get(place).ok_or(FormFault::Wrong)
}
