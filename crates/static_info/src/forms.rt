// Reads the parts of information from JSON.

ghost use Rattle.std.specs.Prelude.{◌≡◌, map, codes, IfOk};
ghost use Rattle.serde_json.specs.View.{view};
ghost use Rattle.hook_select.specs.Groups.{hooks_of, is_among, groups_in, has};
ghost use Rattle.hook_mono.specs.Keys.{distinct_keys};
ghost use Rattle.json_form.specs.Form.{ReadsForm, list_form};
ghost use Rattle.static_info.specs.Shape.{types_form, kind_form, position_form, label_form, block_form, table_form, imported_form, defined_form, func_form, group_form, same_groups, set_of_groups, groups_form, hook_form, distinct_form, hooks_form};

use crate::blocks::BlockTable;
use crate::groups::groups_of;
use crate::{FuncInfo, TableInfo};
use branch_resolve::Block;
use hook_mono::{HookKey, key_of, letter_types};
use hook_select::{GroupName, Hooks, group_named};
use indexmap::IndexSet;
use json_form::{
    Form, FormFault, check_length, has_length, item, read_count, read_list, read_whole,
};
use module_ast::module::DEEPEST;
use module_ast::seq::Seq;
use serde_json::Value;
use std::alloc::Global;
use wasm_num::{BlockKind, NoMemory, ValType};

// The form of a label: a number from 0 to the deepest nesting.
pub(crate) struct LabelForm;

impl Form for LabelForm {
    type Out = u32;

    ghost form = { label_form };

    fn read(_alloc: Global, value: &Value) -> Result<u32, FormFault> {
        Ok(read_count(value, 0, DEEPEST as u64)? as u32)
    }
}

// The form of a block: a list of its kind, begin, end and target.
pub(crate) struct BlockForm;

impl Form for BlockForm {
    type Out = Block;

    ghost form = { block_form };

    fn read(_alloc: Global, value: &Value) -> Result<Block, FormFault> {
        check_length(4, value)?;
        let kind = read_kind(item(value, 0)?)?;
        let begin = read_position(item(value, 1)?)?;
        let end = read_position(item(value, 2)?)?;
        let target = read_position(item(value, 3)?)?;
        Ok(Block {
            kind,
            begin,
            end,
            target,
        })
    }
}

// The form of a br_table: a list of its position and its labels.
pub(crate) struct TableForm;

impl Form for TableForm {
    type Out = TableInfo;

    ghost form = { table_form };

    fn read(alloc: Global, value: &Value) -> Result<TableInfo, FormFault> {
        check_length(2, value)?;
        let pos = read_position(item(value, 0)?)?;
        let labels = read_list::<LabelForm>(alloc, item(value, 1)?)?;
        Ok(TableInfo { pos, labels })
    }
}

// The form of a function: a list of its parameters and results, and of its blocks and br_tables if it is defined.
pub(crate) struct FuncForm;

impl Form for FuncForm {
    type Out = FuncInfo;

    ghost form = { func_form };

    fn read(alloc: Global, value: &Value) -> Result<FuncInfo, FormFault> {
        if has_length(4, value) {
            read_defined(alloc, value)
        } else {
            read_imported(alloc, value)
        }
    }
}

// Reads a defined function, which has blocks and br_tables. The caller knows that the list has four items.
fn read_defined(alloc: Global, value: &Value) -> Result<FuncInfo, FormFault>
    ensures { ReadsForm result (defined_form (view value.now)) }
{
    let params = read_types(alloc, item(value, 0)?)?;
    let results = read_types(alloc, item(value, 1)?)?;
    let blocks = read_list::<BlockForm>(alloc, item(value, 2)?)?;
    let tables = read_list::<TableForm>(alloc, item(value, 3)?)?;
    Ok(FuncInfo {
        params,
        results,
        defined: true,
        blocks: BlockTable::from_vec(alloc, blocks.into_vec())?,
        tables,
    })
}

// Reads an imported function, which has only parameters and results.
fn read_imported(alloc: Global, value: &Value) -> Result<FuncInfo, FormFault>
    ensures { ReadsForm result (imported_form (view value.now)) }
{
    check_length(2, value)?;
    let params = read_types(alloc, item(value, 0)?)?;
    let results = read_types(alloc, item(value, 1)?)?;
    Ok(FuncInfo {
        params,
        results,
        defined: false,
        blocks: BlockTable::none(alloc),
        tables: Seq::from_vec(Vec::new(alloc)),
    })
}

// Reads types from a text that has a letter for each of them.
fn read_types(alloc: Global, value: &Value) -> Result<Seq<ValType>, FormFault>
    ensures { ReadsForm result (types_form (view value.now)) }
{
    let text = value.as_str().ok_or(FormFault::Wrong)?;
    letter_types(alloc, text.as_bytes())?.ok_or(FormFault::Wrong)
}

// Reads the kind of a block from its number, 0 to 4.
fn read_kind(value: &Value) -> Result<BlockKind, FormFault>
    ensures { ReadsForm result (kind_form (view value.now)) }
{
    let number = read_count(value, 0, 4)?;
    match u8::try_from(number) {
        Ok(number) => BlockKind::of_number(number).ok_or(FormFault::Wrong),
        Err(_) => Err(FormFault::Wrong),
    }
}

// Reads a position, from -1 to 2^31 - 1.
fn read_position(value: &Value) -> Result<i32, FormFault>
    ensures { ReadsForm result (position_form (view value.now)) }
{
    Ok(read_whole(value, -1, i32::MAX as i64)? as i32)
}

// The form of a group: its name.
pub(crate) struct GroupForm;

impl Form for GroupForm {
    type Out = GroupName;

    ghost form = { group_form };

    fn read(_alloc: Global, value: &Value) -> Result<GroupName, FormFault> {
        let name = value.as_str().ok_or(FormFault::Wrong)?;
        group_named(name).ok_or(FormFault::Wrong)
    }
}

// The set of these groups.
fn set_of(groups: &[GroupName]) -> Hooks
    ensures { result ≡ set_of_groups groups.now }
{
    let mut hooks = Hooks::none();
    for group in groups {
        hooks = hooks.with(*group);
    }
    hooks
}

// Whether the two lists are the same.
fn same_groups(left: &[GroupName], right: &[GroupName]) -> bool
    ensures { result ≡ same_groups left.now right.now }
{
    left == right
}

// Reads a set of groups from a list of their names. `Wrong` also if the names are not in the fixed order without repeats.
pub(crate) fn read_groups(alloc: Global, value: &Value) -> Result<Hooks, FormFault>
    ensures { ReadsForm result (groups_form (view value.now)) }
{
    let groups = read_list::<GroupForm>(alloc, value)?;
    let hooks = set_of(groups.as_slice());
    let all = groups_of(alloc, &hooks)?;
    if same_groups(groups.as_slice(), all.as_slice()) {
        Ok(hooks)
    } else {
        Err(FormFault::Wrong)
    }
}

// The form of a hook: the name of a proper key.
pub(crate) struct HookForm;

impl Form for HookForm {
    type Out = HookKey;

    ghost form = { hook_form };

    fn read(alloc: Global, value: &Value) -> Result<HookKey, FormFault> {
        let name = value.as_str().ok_or(FormFault::Wrong)?;
        key_of(alloc, name)?.ok_or(FormFault::Wrong)
    }
}

// The set of these keys, in the order of their first occurrences.
fn key_set(alloc: Global, keys: Vec<HookKey>) -> Result<IndexSet<HookKey>, NoMemory>
    ensures { IfOk result (λ set. set.keys ≡ distinct_keys keys.items) }
{
    let mut set = IndexSet::new(alloc);
    for key in keys {
        let _ = set.insert_full(key)?;
    }
    Ok(set)
}

// The keys of the set, in its order.
fn listed(alloc: Global, set: IndexSet<HookKey>) -> Result<Vec<HookKey>, NoMemory>
    ensures { IfOk result (λ keys. keys.items ≡ set.keys) }
{
    set.into_iter().collect(alloc)
}

// These keys; `Wrong` if a key occurs twice.
fn distinct(alloc: Global, keys: Seq<HookKey>) -> Result<Seq<HookKey>, FormFault>
    ensures { ReadsForm result (distinct_form keys) }
{
    let keys = keys.into_vec();
    let count = keys.len();
    let set = key_set(alloc, keys)?;
    if set.len() != count {
        return Err(FormFault::Wrong);
    }
    Ok(Seq::from_vec(listed(alloc, set)?))
}

// Reads the keys of hooks from a list of their names. `Wrong` also if a key occurs twice.
pub(crate) fn read_hooks(alloc: Global, value: &Value) -> Result<Seq<HookKey>, FormFault>
    ensures { ReadsForm result (hooks_form (view value.now)) }
{
    let keys = read_list::<HookForm>(alloc, value)?;
    distinct(alloc, keys)
}
