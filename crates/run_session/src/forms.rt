// The forms of the parts of a script.

ghost use Rattle.std.specs.Prelude.{◌≡◌};
ghost use Rattle.serde_json.specs.View.{view};
ghost use Rattle.json_form.specs.Form.{ReadsForm};
ghost use Rattle.run_session.specs.Forms.{call_form, hex_form, write_form, answer_form};

use hex::FromHexError;
use json_form::{
    Form, FormFault, Integer, Text, check_keys, check_length, field, item, read_count, read_list,
};
use module_ast::seq::Seq;
use serde_json::Value;
use std::alloc::Global;
use wasm_sem::{Call, HostAnswer, HostWrite};

/// The form of a call: an object with exactly `export`, a text, and `args`, a list of numbers.
pub struct CallForm;

impl Form for CallForm {
    type Out = Call;

    ghost form = { call_form };

    fn read(alloc: Global, value: &Value) -> Result<Call, FormFault> {
        check_keys(&["export", "args"], value)?;
        let export = Text::read(alloc, field(value, "export")?)?;
        let args = read_list::<Integer>(alloc, field(value, "args")?)?;
        Ok(Call { export, args })
    }
}

/// The form of a host answer: an object with exactly `results`, a list of numbers, and `writes`, a list of writes.
pub struct AnswerForm;

impl Form for AnswerForm {
    type Out = HostAnswer;

    ghost form = { answer_form };

    fn read(alloc: Global, value: &Value) -> Result<HostAnswer, FormFault> {
        check_keys(&["results", "writes"], value)?;
        let results = read_list::<Integer>(alloc, field(value, "results")?)?;
        let writes = read_list::<WriteForm>(alloc, field(value, "writes")?)?;
        Ok(HostAnswer { results, writes })
    }
}

/// The form of a write: a list of an address and a text of hexadecimal digits.
pub struct WriteForm;

impl Form for WriteForm {
    type Out = HostWrite;

    ghost form = { write_form };

    fn read(alloc: Global, value: &Value) -> Result<HostWrite, FormFault> {
        check_length(2, value)?;
        let address = read_count(item(value, 0)?, 0, u32::MAX as u64)? as u32;
        let bytes = read_hex(alloc, item(value, 1)?)?;
        Ok(HostWrite { address, bytes })
    }
}

// Reads the bytes that a text of hexadecimal digits spells.
fn read_hex(alloc: Global, value: &Value) -> Result<Seq<u8>, FormFault>
    ensures { ReadsForm result (hex_form (view value.now)) }
{
    let text = value.as_str().ok_or(FormFault::Wrong)?;
    match hex::decode(alloc, text) {
        Ok(bytes) => Ok(Seq::from_vec(bytes)),
        Err(FromHexError::OutOfMemory) => Err(FormFault::NoMemory),
        Err(_) => Err(FormFault::Wrong),
    }
}
