// Compares and hashes keys, by their variant, by what they hold except types, and by their types.

ghost use Rattle.std.specs.Prelude.{◌≡◌, map, flat_map, fold};
ghost use Rattle.std.specs.Hash as fed;
ghost use Rattle.std.specs.Str.{bytes_eq};
ghost use Rattle.hook_mono.specs.Keys.{key_variant, key_detail, key_types};
ghost use Rattle.hook_mono.specs.Orders.{type_number};

use crate::HookKey;
use std::hash::{Hash, Hasher};
use std::slice::from_ref;
use wasm_num::ValType;

impl HookKey {
    // The number of the variant.
    fn variant(&self) -> u8
        ensures { result ≡ key_variant self.now }
    {
        match self {
            HookKey::Plain(_) => 0,
            HookKey::Begin(_) => 1,
            HookKey::End(_) => 2,
            HookKey::Const(_) => 3,
            HookKey::Num(_) => 4,
            HookKey::Drop(_) => 5,
            HookKey::Select(_) => 6,
            HookKey::Local(_, _) => 7,
            HookKey::Global(_, _) => 8,
            HookKey::Load(_) => 9,
            HookKey::Store(_) => 10,
            HookKey::CallPre(_) => 11,
            HookKey::IndirectPre(_) => 12,
            HookKey::CallPost(_) => 13,
            HookKey::Return(_) => 14,
        }
    }

    // What the key holds except types, as a number: the number of a group, of a kind of block or of what is done with a
    // variable, or an opcode. It is 0 if the key holds none of these.
    fn detail(&self) -> u8
        ensures { result ≡ key_detail self.now }
    {
        match self {
            HookKey::Plain(group) => *group as u8,
            HookKey::Begin(kind) => kind.number(),
            HookKey::End(kind) => kind.number(),
            HookKey::Num(op) => op.opcode(),
            HookKey::Local(op, _) => *op as u8,
            HookKey::Global(op, _) => *op as u8,
            HookKey::Load(op) => op.opcode(),
            HookKey::Store(op) => op.opcode(),
            _ => 0,
        }
    }

    // The types that the key holds, in order.
    fn types(&self) -> &[ValType]
        ensures { result.now ≡ key_types self.now }
    {
        match self {
            HookKey::Const(ty) => from_ref(ty),
            HookKey::Drop(ty) => from_ref(ty),
            HookKey::Select(ty) => from_ref(ty),
            HookKey::Local(_, ty) => from_ref(ty),
            HookKey::Global(_, ty) => from_ref(ty),
            HookKey::CallPre(types) => types.as_slice(),
            HookKey::IndirectPre(types) => types.as_slice(),
            HookKey::CallPost(types) => types.as_slice(),
            HookKey::Return(types) => types.as_slice(),
            _ => &[],
        }
    }
}

// Whether two lists have the same types in the same order.
fn same_types(left: &[ValType], right: &[ValType]) -> bool
    ensures { result ≡ bytes_eq (map type_number left.now) (map type_number right.now) }
{
    left == right
}

// Feeds the number of each type to a hasher.
fn feed_types<H: Hasher>(state: &mut H, types: &[ValType])
    ensures { state.new ≡ fold H.write state.old (flat_map fed.u8 (map type_number types.now)) }
{
    for ty in types {
        state.write_u8(*ty as u8);
    }
}

impl PartialEq for HookKey {
    ghost use Rattle.std.specs.Cmp.{partial_equiv_from_equiv};
    ghost use Rattle.hook_mono.specs.Keys.{key_eq, key_eq_laws};

    ghost eq = { key_eq };

    ghost laws = { partial_equiv_from_equiv key_eq_laws };

    fn eq(&self, other: &HookKey) -> bool {
        self.variant() == other.variant()
            && self.detail() == other.detail()
            && same_types(self.types(), other.types())
    }
}

impl Eq for HookKey {
    ghost use Rattle.hook_mono.specs.Keys.{key_eq_laws};

    ghost laws = { key_eq_laws };
}

impl Hash for HookKey {
    ghost use Rattle.hook_mono.specs.Keys.{key_input, same_input};

    ghost hash_input = { key_input };

    ghost respects_eq = { same_input };

    fn hash<H: Hasher>(&self, state: &mut H) {
        state.write_u8(self.variant());
        state.write_u8(self.detail());
        feed_types(state, self.types());
    }
}
