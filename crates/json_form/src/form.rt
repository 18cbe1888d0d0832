// Forms: which values of JSON are read as values of a type.

ghost use Rattle.std.specs.Prelude.{◌≡◌, Option, Some, None, IfOk, IfErr};
ghost use Rattle.serde_json.specs.Data.{Data};
ghost use Rattle.serde_json.specs.Find.{as_array};
ghost use Rattle.serde_json.specs.View.{view, items_view};
ghost use Rattle.json_form.specs.Form.{ReadsForm, list_form, count_form, whole_form};

use module_ast::name::Name;
use module_ast::seq::Seq;
use serde_json::Value;
use std::alloc::{AllocError, AllocFailed, Global};

/// Why a value of JSON is not read as a value of a type.
#[derive(Clone, Copy, Debug, PartialEq, Eq)]
pub enum FormFault {
    /// The value is not of the form.
    Wrong,
    /// Memory ran out.
    NoMemory,
}

impl From<AllocError> for FormFault {
    ghost use Rattle.json_form.specs.declared.form.FormFault.TheVariants.{NoMemory};

    ghost from_gives = { λ _ e. e ≡ NoMemory };

    fn from(_refused: AllocError) -> FormFault {
        FormFault::NoMemory
    }
}

impl<T: Drop> From<AllocFailed<T>> for FormFault {
    ghost use Rattle.json_form.specs.declared.form.FormFault.TheVariants.{NoMemory};

    ghost from_gives = { λ _ e. e ≡ NoMemory };

    fn from(_refused: AllocFailed<T>) -> FormFault {
        FormFault::NoMemory
    }
}

/// A form: which values of JSON have it, and what each of them is read as.
pub trait Form {
    type Out: Drop;

    ghost form: { Data → Option Self.Out };

    /// What the value is read as. `Wrong` exactly if the value does not have the form, `NoMemory` if memory runs out.
    fn read(alloc: Global, value: &Value) -> Result<Self::Out, FormFault>
        ensures { ReadsForm result (form (view value.now)) };
}

/// The form of a whole number from -2^63 to 2^64 - 1.
pub struct Integer;

impl Form for Integer {
    ghost use Rattle.json_form.specs.Form.{integer_form};

    type Out = i128;

    ghost form = { integer_form };

    fn read(_alloc: Global, value: &Value) -> Result<i128, FormFault> {
        value
            .as_number()
            .and_then(|number| number.as_i128())
            .ok_or(FormFault::Wrong)
    }
}

/// The form of a text.
pub struct Text;

impl Form for Text {
    ghost use Rattle.json_form.specs.Form.{text_form};

    type Out = Name;

    ghost form = { text_form };

    fn read(alloc: Global, value: &Value) -> Result<Name, FormFault> {
        let text = value.as_str().ok_or(FormFault::Wrong)?;
        Ok(Name::from_string(String::from_str(alloc, text)?))
    }
}

// The items of a list; `Wrong` if the value is no list.
fn items(value: &Value) -> Result<&[Value], FormFault>
    ensures found { IfOk result (λ vs. as_array (view value.now) ≡ Some (items_view vs.now)) }
    ensures missing { IfErr result (λ e. (e ≡ FormFault.Wrong)
        × (as_array (view value.now) ≡ None)) }
{
    match value.as_array() {
        Some(found) => Ok(found.as_slice()),
        None => Err(FormFault::Wrong),
    }
}

/// Reads a list whose items all have the form; `Wrong` if the value is anything else.
pub fn read_list<F: Form>(alloc: Global, value: &Value) -> Result<Seq<F::Out>, FormFault>
    ensures { ReadsForm result (list_form F.form (view value.now)) }
{
    let values = items(value)?;
    let mut found = Vec::new(alloc);
    for value in values {
        found.push(F::read(alloc, value)?)?;
    }
    Ok(Seq::from_vec(found))
}

/// Reads a whole number from `least` to `most`; `Wrong` if the value is anything else.
pub fn read_count(value: &Value, least: u64, most: u64) -> Result<u64, FormFault>
    ensures { ReadsForm result (count_form least most (view value.now)) }
{
    match value.as_u64() {
        Some(number) if least <= number && number <= most => Ok(number),
        _ => Err(FormFault::Wrong),
    }
}

/// Reads a whole number from `least` to `most`, which may be negative; `Wrong` if the value is anything else.
pub fn read_whole(value: &Value, least: i64, most: i64) -> Result<i64, FormFault>
    ensures { ReadsForm result (whole_form least most (view value.now)) }
{
    match value.as_number().and_then(|number| number.as_i64()) {
        Some(number) if least <= number && number <= most => Ok(number),
        _ => Err(FormFault::Wrong),
    }
}
