// Finds the key of a hook by its name.

ghost use Rattle.std.specs.Prelude.{◌≡◌, ℕ, List, [], ◌∷◌, IfOk, option_and_then};
ghost use Rattle.std.specs.Option.{option_map};
ghost use Rattle.wasm_num.specs.Names.{num_name};
ghost use Rattle.module_ast.specs.Binary.{load_name, store_name};
ghost use Rattle.wasm_num.specs.Kinds.{kind_name};
ghost use Rattle.hook_mono.specs.Keys.{is_proper};
ghost use Rattle.hook_mono.specs.Names.{const_name, letters, IsKeyOf};
ghost use Rattle.hook_mono.specs.Reading.{named, strip, letter_type, letter_types, first_read, fixed_readers, part_readers, types_readers, read_key, if_named};

use crate::HookKey;
use crate::names::{const_name, name_of};
use crate::plain::{is_plain, plain_named};
use hook_select::GroupName;
use module_ast::ops::{LoadOp, StoreOp, VarOp};
use module_ast::seq::Seq;
use std::alloc::Global;
use wasm_num::{BlockKind, NoMemory, NumOp, ValType};

const VAL_TYPES: [ValType; 2] = [ValType::I32, ValType::I64];

// What has a name of its own in the names of hooks.
trait HasName: Copy {
    ghost hook_name: { Self → List ℕ };

    fn hook_name(self) -> &'static str
        ensures { result.now ≡ hook_name self };
}

impl HasName for BlockKind {
    ghost hook_name = { kind_name };

    fn hook_name(self) -> &'static str {
        self.name()
    }
}

impl HasName for ValType {
    ghost hook_name = { λ t. letters (t ∷ []) };

    fn hook_name(self) -> &'static str {
        match self {
            ValType::I32 => "i",
            ValType::I64 => "l",
        }
    }
}

impl HasName for NumOp {
    ghost hook_name = { num_name };

    fn hook_name(self) -> &'static str {
        self.name()
    }
}

impl HasName for LoadOp {
    ghost hook_name = { load_name };

    fn hook_name(self) -> &'static str {
        self.name()
    }
}

impl HasName for StoreOp {
    ghost hook_name = { store_name };

    fn hook_name(self) -> &'static str {
        self.name()
    }
}

/// The proper key that has this name; `None` if no proper key has it. Goes over the name a few times, and over its letters of
/// types once or twice.
///
/// `NoMemory` if memory runs out.
pub fn key_of(alloc: Global, name: &str) -> Result<Option<HookKey>, NoMemory>
    ensures { IfOk result (IsKeyOf name.now) }
{
    match read_key(alloc, name)? {
        Some(key) => if_named(alloc, key, name),
        None => Ok(None),
    }
}

// The key if it is proper and has this name. What was read from a name counts only if this is so.
fn if_named(alloc: Global, key: HookKey, name: &str) -> Result<Option<HookKey>, NoMemory>
    ensures { IfOk result (λ kept. kept ≡ if_named name.now key) }
{
    let own = name_of(alloc, &key)?;
    if is_proper(&key) && own.as_str() == name {
        return Ok(Some(key));
    }
    Ok(None)
}

// Whether there is a hook for a key.
fn is_proper(key: &HookKey) -> bool
    ensures { result ≡ is_proper key.now }
{
    match key {
        HookKey::Plain(group) => is_plain(*group),
        HookKey::Global(VarOp::Tee, _) => false,
        _ => true,
    }
}

// The key that a name is read as: the name of a group or of an operation is tried first, then one that ends with the name of a
// kind of block or with the letter of one type, then one that ends with the letters of a list of types.
fn read_key(alloc: Global, name: &str) -> Result<Option<HookKey>, NoMemory>
    ensures { IfOk result (λ found. found ≡ read_key name.now) }
{
    if let Some(key) = fixed_key(name) {
        return Ok(Some(key));
    }
    if let Some(key) = part_key(name) {
        return Ok(Some(key));
    }
    types_key(alloc, name)
}

// The key of a name that is the name of a group, of a constant or of an operation.
fn fixed_key(name: &str) -> Option<HookKey>
    ensures { result ≡ first_read fixed_readers name.now }
{
    if let Some(group) = plain_named(&GroupName::ALL, name) {
        return Some(HookKey::Plain(group));
    }
    if let Some(ty) = const_named(&VAL_TYPES, name) {
        return Some(HookKey::Const(ty));
    }
    if let Some(op) = named(&NumOp::ALL, name) {
        return Some(HookKey::Num(op));
    }
    if let Some(op) = named(&LoadOp::ALL, name) {
        return Some(HookKey::Load(op));
    }
    if let Some(op) = named(&StoreOp::ALL, name) {
        return Some(HookKey::Store(op));
    }
    None
}

// The key of a name that ends with the name of a kind of block, or with the letter of one type.
fn part_key(name: &str) -> Option<HookKey>
    ensures { result ≡ first_read part_readers name.now }
{
    if let Some(kind) = named_after(&BlockKind::ALL, "begin_", name) {
        return Some(HookKey::Begin(kind));
    }
    if let Some(kind) = named_after(&BlockKind::ALL, "end_", name) {
        return Some(HookKey::End(kind));
    }
    if let Some(ty) = named_after(&VAL_TYPES, "drop_", name) {
        return Some(HookKey::Drop(ty));
    }
    if let Some(ty) = named_after(&VAL_TYPES, "select_", name) {
        return Some(HookKey::Select(ty));
    }
    if let Some(ty) = named_after(&VAL_TYPES, "local.get_", name) {
        return Some(HookKey::Local(VarOp::Get, ty));
    }
    if let Some(ty) = named_after(&VAL_TYPES, "local.set_", name) {
        return Some(HookKey::Local(VarOp::Set, ty));
    }
    if let Some(ty) = named_after(&VAL_TYPES, "local.tee_", name) {
        return Some(HookKey::Local(VarOp::Tee, ty));
    }
    if let Some(ty) = named_after(&VAL_TYPES, "global.get_", name) {
        return Some(HookKey::Global(VarOp::Get, ty));
    }
    if let Some(ty) = named_after(&VAL_TYPES, "global.set_", name) {
        return Some(HookKey::Global(VarOp::Set, ty));
    }
    None
}

// The key of a name that ends with the letters of a list of types.
fn types_key(alloc: Global, name: &str) -> Result<Option<HookKey>, NoMemory>
    ensures { IfOk result (λ found. found ≡ first_read types_readers name.now) }
{
    if let Some(types) = types_after(alloc, "call_pre_", name)? {
        return Ok(Some(HookKey::CallPre(types)));
    }
    if let Some(types) = types_after(alloc, "call_indirect_pre_", name)? {
        return Ok(Some(HookKey::IndirectPre(types)));
    }
    if let Some(types) = types_after(alloc, "call_post_", name)? {
        return Ok(Some(HookKey::CallPost(types)));
    }
    if let Some(types) = types_after(alloc, "return_", name)? {
        return Ok(Some(HookKey::Return(types)));
    }
    Ok(None)
}

// The item that has this name, if there is one.
fn named<T: HasName>(all: &[T], name: &str) -> Option<T>
    ensures { result ≡ named T.hook_name all.now name.now }
{
    spelled(all, name.as_bytes())
}

// The item whose name has these bytes, if there is one.
fn spelled<T: HasName>(all: &[T], name: &[u8]) -> Option<T>
    ensures { result ≡ named T.hook_name all.now name.now }
{
    all.iter()
        .copied()
        .find(|item| item.hook_name().as_bytes() == name)
}

// The type whose constant has this name.
fn const_named(types: &[ValType], name: &str) -> Option<ValType>
    ensures { result ≡ named const_name types.now name.now }
{
    types.iter().copied().find(|ty| const_name(*ty) == name)
}

// What follows the head in a name; `None` if the name does not begin with the head.
fn strip<'a>(head: &str, name: &'a [u8]) -> Option<&'a [u8]>
    ensures { option_map (λ rest. rest.now) result ≡ strip head.now name.now }
{
    name.strip_prefix(head.as_bytes())
}

// The item whose name follows the head in a name.
fn named_after<T: HasName>(all: &[T], head: &str, name: &str) -> Option<T>
    ensures { result ≡ option_and_then (named T.hook_name all.now) (strip head.now name.now) }
{
    match strip(head, name.as_bytes()) {
        Some(rest) => spelled(all, rest),
        None => None,
    }
}

fn types_after(alloc: Global, head: &str, name: &str) -> Result<Option<Seq<ValType>>, NoMemory>
    ensures { IfOk result (λ types. types ≡ option_and_then letter_types (strip head.now name.now)) }
{
    match strip(head, name.as_bytes()) {
        Some(rest) => letter_types(alloc, rest),
        None => Ok(None),
    }
}

/// The types of a text that has a letter for each: `i` for `i32` and `l` for `i64`. `None` if the text has any other byte.
///
/// `NoMemory` if memory runs out.
pub fn letter_types(alloc: Global, letters: &[u8]) -> Result<Option<Seq<ValType>>, NoMemory>
    ensures { IfOk result (λ types. types ≡ letter_types letters.now) }
{
    let mut types = Vec::with_capacity(alloc, letters.len())?;
    for letter in letters {
        match letter_type(*letter) {
            Some(ty) => types.push(ty)?,
            None => return Ok(None),
        }
    }
    Ok(Some(Seq::from_vec(types)))
}

// The type of a letter; `None` for any other byte.
fn letter_type(letter: u8) -> Option<ValType>
    ensures { result ≡ letter_type letter }
{
    match letter {
        b'i' => Some(ValType::I32),
        b'l' => Some(ValType::I64),
        _ => None,
    }
}
