// What a hook call tells.

/// Passes to the macro `$to` what it is given here, and then each key but `Plain` and `Num`, with the fields of the event of the
/// same name after the location. Each field has where it comes from: it is in the key, or it is told in words, as a number, a
/// signed number, a value of a type or the values of some types, or it is the callee in a slot of the table. The rows of plain
/// groups are in `each_plain`. A number instruction tells its operands and its result, of one operand or of two.
#[macro_export]
macro_rules! each_key {
    ($to:ident($($given:tt)*)) => {
        $to! {
            ($($given)*)
            Begin(kind) (kind: key(*kind))
            End(kind) (kind: key(*kind), begin: signed())
            Const(ty) (value: value(*ty))
            Drop(ty) (value: value(*ty))
            Select(ty) (first: value(*ty), second: value(*ty), cond: number())
            Local(op, ty) (op: key(*op), index: number(), value: value(*ty))
            Global(op, ty) (op: key(*op), index: number(), value: value(*ty))
            Load(op) (op: key(*op), offset: number(), address: number(), value: value(op.ty()))
            Store(op) (op: key(*op), offset: number(), address: number(), value: value(op.ty()))
            CallPre(types) (callee: number(), args: values(types.as_slice()))
            IndirectPre(types) (ty: number(), slot: number(), callee: callee(slot), args: values(types.as_slice()))
            CallPost(types) (results: values(types.as_slice()))
            Return(types) (results: values(types.as_slice()))
        }
    };
}
