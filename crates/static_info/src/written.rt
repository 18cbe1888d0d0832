// Writes information as JSON.

ghost use Rattle.std.specs.Prelude.{◌≡◌, map, IfOk};
ghost use Rattle.serde_json.specs.Data.{string};
ghost use Rattle.serde_json.specs.View.{view};
ghost use Rattle.static_info.specs.Json.{list_of, count_data, types_data, text_data, block_data, table_data, func_data, group_data, groups_data, hook_data, info_data, info_text, HoldInfo};
ghost use Rattle.static_info.specs.Form.{IsWellFormed};

use crate::groups::groups_of;
use crate::{FuncInfo, Info, TableInfo};
use branch_resolve::Block;
use hook_mono::{HookKey, name_of, with_letters};
use hook_select::{GroupName, Hooks};
use json_form::{Written, write_list};
use module_ast::name::Name;
use serde_json::{Value, json};
use std::alloc::{AllocError, Global};
use wasm_num::{NoMemory, ValType};

// A label as a number.
pub(crate) struct LabelData;

impl Written for LabelData {
    type In = u32;

    ghost written = { count_data };

    fn write(_alloc: Global, label: &u32) -> Result<Value, AllocError> {
        Ok(Value::from(*label))
    }
}

// A block as a list of its kind, begin, end and target.
pub(crate) struct BlockData;

impl Written for BlockData {
    type In = Block;

    ghost written = { block_data };

    fn write(alloc: Global, block: &Block) -> Result<Value, AllocError> {
        let kind = block.kind.number();
        json!(in alloc; [kind, (block.begin), (block.end), (block.target)])
    }
}

// A br_table as a list of its position and its labels.
pub(crate) struct TableData;

impl Written for TableData {
    type In = TableInfo;

    ghost written = { table_data };

    fn write(alloc: Global, table: &TableInfo) -> Result<Value, AllocError> {
        let labels = write_list::<LabelData>(alloc, table.labels.as_slice())?;
        let mut parts = Vec::with_capacity(alloc, 2)?;
        parts.push(Value::from(table.pos))?;
        parts.push(labels)?;
        Ok(Value::Array(parts))
    }
}

// A function as a list of its parameters and results, and of its blocks and br_tables if it is defined.
pub(crate) struct FuncData;

impl Written for FuncData {
    type In = FuncInfo;

    ghost written = { func_data };

    fn write(alloc: Global, func: &FuncInfo) -> Result<Value, AllocError> {
        let mut parts = Vec::with_capacity(alloc, 4)?;
        parts.push(write_types(alloc, func.params.as_slice())?)?;
        parts.push(write_types(alloc, func.results.as_slice())?)?;
        if func.defined {
            parts.push(write_list::<BlockData>(alloc, func.blocks.as_slice())?)?;
            parts.push(write_list::<TableData>(alloc, func.tables.as_slice())?)?;
        }
        Ok(Value::Array(parts))
    }
}

// A name as a text.
pub(crate) struct NameData;

impl Written for NameData {
    type In = Name;

    ghost written = { text_data };

    fn write(alloc: Global, name: &Name) -> Result<Value, AllocError> {
        Value::try_from_str(alloc, name.as_str())
    }
}

// A hook as its name.
pub(crate) struct HookData;

impl Written for HookData {
    type In = HookKey;

    ghost written = { hook_data };

    fn write(alloc: Global, key: &HookKey) -> Result<Value, AllocError> {
        let name = name_of(alloc, key)?;
        Value::try_from_str(alloc, name.as_str())
    }
}

// A group as its name.
pub(crate) struct GroupData;

impl Written for GroupData {
    type In = GroupName;

    ghost written = { group_data };

    fn write(alloc: Global, group: &GroupName) -> Result<Value, AllocError> {
        Value::try_from_str(alloc, group.name())
    }
}

// Types as a text that has a letter for each of them.
fn write_types(alloc: Global, types: &[ValType]) -> Result<Value, NoMemory>
    ensures { IfOk result (λ v. view v ≡ types_data types.now) }
{
    Ok(Value::String(with_letters(alloc, "", types)?))
}

// A set of groups as a list of their names, in their fixed order.
fn write_groups(alloc: Global, hooks: &Hooks) -> Result<Value, NoMemory>
    ensures { IfOk result (λ v. view v ≡ groups_data hooks.now) }
{
    let groups = groups_of(alloc, hooks)?;
    write_list::<GroupData>(alloc, groups.as_slice())
}

// The JSON value of information.
fn value_of(alloc: Global, info: &Info) -> Result<Value, NoMemory>
    ensures { IfOk result (λ v. view v ≡ info_data info.now) }
{
    let imports = info.imports;
    json!(in alloc; {
        "dropped": (write_list::<NameData>(alloc, info.dropped.as_slice())?),
        "functions": (write_list::<FuncData>(alloc, info.functions.as_slice())?),
        "groups": (write_groups(alloc, &info.groups)?),
        "hooks": (write_list::<HookData>(alloc, info.hooks.as_slice())?),
        "imports": imports,
        "version": 1u32
    })
}

/// The JSON text of the information, without spaces between its parts: an object with the keys `dropped`, `functions`,
/// `groups`, `hooks`, `imports` and `version`, in this order. `from_json` reads the information from it again. An `Err` comes
/// only if memory runs out.
pub fn to_json(alloc: Global, info: &Info) -> Result<Vec<u8>, NoMemory>
    requires { IsWellFormed info.now }
    ensures text { IfOk result (λ bytes. bytes.items ≡ info_text info.now) }
    ensures holds { IfOk result (λ bytes. HoldInfo bytes.items info.now) }
{
    value_of(alloc, info)?.to_vec(alloc)
}
