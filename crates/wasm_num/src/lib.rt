// Value types, kinds of block, number instructions and what they compute, and lists of a few values.
#![tactic(auto)]

ghost use Rattle.std.specs.Prelude.{◌≡◌, length};

mod calcs;
pub mod laws;

pub use crate::calcs::{binary, unary};
use smallvec::SmallVec;
use std::alloc::{AllocError, Global};
use std::marker::Model;

/// Memory ran out: the error of the allocator.
pub type NoMemory = AllocError;

/// The type of a value: an integer of 32 or of 64 bits. (Standard, 2.3.1)
#[derive(Clone, Copy, Debug, PartialEq, Eq)]
pub enum ValType {
    I32,
    I64,
}

/// What a label belongs to. The two branches of an `if` are blocks of their own.
#[derive(Clone, Copy, PartialEq, Eq)]
pub enum BlockKind {
    Function = 0,
    Block = 1,
    Loop = 2,
    If = 3,
    Else = 4,
}

impl BlockKind {
    ghost use Rattle.wasm_num.specs.Kinds.{kind_name, kind_number, kind_of_number};

    /// Each kind once, in the order of the kinds' numbers.
    pub const ALL: [BlockKind; 5] = [
        BlockKind::Function,
        BlockKind::Block,
        BlockKind::Loop,
        BlockKind::If,
        BlockKind::Else,
    ];

    /// The number of the kind in reports and in information, 0 to 4.
    pub fn number(self) -> u8
        ensures { result ≡ kind_number self }
    {
        self as u8
    }

    /// The kind that has this number; `None` if the number is above 4.
    pub fn of_number(number: u8) -> Option<BlockKind>
        ensures { result ≡ kind_of_number number }
    {
        match number {
            0 => Some(BlockKind::Function),
            1 => Some(BlockKind::Block),
            2 => Some(BlockKind::Loop),
            3 => Some(BlockKind::If),
            4 => Some(BlockKind::Else),
            _ => None,
        }
    }

    /// The name of the kind in hooks and reports.
    pub fn name(self) -> &'static str
        ensures { result.now ≡ kind_name self }
    {
        match self {
            BlockKind::Function => "function",
            BlockKind::Block => "block",
            BlockKind::Loop => "loop",
            BlockKind::If => "if",
            BlockKind::Else => "else",
        }
    }
}

/// The number instructions without constants, each with its opcode. (Standard, 2.4.1 and 5.4.5)
#[derive(Clone, Copy, PartialEq, Eq)]
pub enum NumOp {
    I32Eqz = 0x45,
    I32Eq = 0x46,
    I32Ne = 0x47,
    I32LtS = 0x48,
    I32LtU = 0x49,
    I32GtS = 0x4A,
    I32GtU = 0x4B,
    I32LeS = 0x4C,
    I32LeU = 0x4D,
    I32GeS = 0x4E,
    I32GeU = 0x4F,
    I64Eqz = 0x50,
    I64Eq = 0x51,
    I64Ne = 0x52,
    I64LtS = 0x53,
    I64LtU = 0x54,
    I64GtS = 0x55,
    I64GtU = 0x56,
    I64LeS = 0x57,
    I64LeU = 0x58,
    I64GeS = 0x59,
    I64GeU = 0x5A,
    I32Clz = 0x67,
    I32Ctz = 0x68,
    I32Popcnt = 0x69,
    I32Add = 0x6A,
    I32Sub = 0x6B,
    I32Mul = 0x6C,
    I32DivS = 0x6D,
    I32DivU = 0x6E,
    I32RemS = 0x6F,
    I32RemU = 0x70,
    I32And = 0x71,
    I32Or = 0x72,
    I32Xor = 0x73,
    I32Shl = 0x74,
    I32ShrS = 0x75,
    I32ShrU = 0x76,
    I32Rotl = 0x77,
    I32Rotr = 0x78,
    I64Clz = 0x79,
    I64Ctz = 0x7A,
    I64Popcnt = 0x7B,
    I64Add = 0x7C,
    I64Sub = 0x7D,
    I64Mul = 0x7E,
    I64DivS = 0x7F,
    I64DivU = 0x80,
    I64RemS = 0x81,
    I64RemU = 0x82,
    I64And = 0x83,
    I64Or = 0x84,
    I64Xor = 0x85,
    I64Shl = 0x86,
    I64ShrS = 0x87,
    I64ShrU = 0x88,
    I64Rotl = 0x89,
    I64Rotr = 0x8A,
    I32WrapI64 = 0xA7,
    I64ExtendI32S = 0xAC,
    I64ExtendI32U = 0xAD,
    I32Extend8S = 0xC0,
    I32Extend16S = 0xC1,
    I64Extend8S = 0xC2,
    I64Extend16S = 0xC3,
    I64Extend32S = 0xC4,
}

impl NumOp {
    ghost use Rattle.wasm_num.specs.Shapes.{num_operands, num_result};
    ghost use Rattle.wasm_num.specs.Names.{num_name};
    ghost use Rattle.wasm_num.specs.Opcodes.{num_opcode, num_of_opcode};

    /// Each number instruction once, in the order of the opcodes.
    pub const ALL: [NumOp; 66] = [
        NumOp::I32Eqz,
        NumOp::I32Eq,
        NumOp::I32Ne,
        NumOp::I32LtS,
        NumOp::I32LtU,
        NumOp::I32GtS,
        NumOp::I32GtU,
        NumOp::I32LeS,
        NumOp::I32LeU,
        NumOp::I32GeS,
        NumOp::I32GeU,
        NumOp::I64Eqz,
        NumOp::I64Eq,
        NumOp::I64Ne,
        NumOp::I64LtS,
        NumOp::I64LtU,
        NumOp::I64GtS,
        NumOp::I64GtU,
        NumOp::I64LeS,
        NumOp::I64LeU,
        NumOp::I64GeS,
        NumOp::I64GeU,
        NumOp::I32Clz,
        NumOp::I32Ctz,
        NumOp::I32Popcnt,
        NumOp::I32Add,
        NumOp::I32Sub,
        NumOp::I32Mul,
        NumOp::I32DivS,
        NumOp::I32DivU,
        NumOp::I32RemS,
        NumOp::I32RemU,
        NumOp::I32And,
        NumOp::I32Or,
        NumOp::I32Xor,
        NumOp::I32Shl,
        NumOp::I32ShrS,
        NumOp::I32ShrU,
        NumOp::I32Rotl,
        NumOp::I32Rotr,
        NumOp::I64Clz,
        NumOp::I64Ctz,
        NumOp::I64Popcnt,
        NumOp::I64Add,
        NumOp::I64Sub,
        NumOp::I64Mul,
        NumOp::I64DivS,
        NumOp::I64DivU,
        NumOp::I64RemS,
        NumOp::I64RemU,
        NumOp::I64And,
        NumOp::I64Or,
        NumOp::I64Xor,
        NumOp::I64Shl,
        NumOp::I64ShrS,
        NumOp::I64ShrU,
        NumOp::I64Rotl,
        NumOp::I64Rotr,
        NumOp::I32WrapI64,
        NumOp::I64ExtendI32S,
        NumOp::I64ExtendI32U,
        NumOp::I32Extend8S,
        NumOp::I32Extend16S,
        NumOp::I64Extend8S,
        NumOp::I64Extend16S,
        NumOp::I64Extend32S,
    ];

    /// The byte that the instruction is written as. (Standard, 5.4.5)
    pub fn opcode(self) -> u8
        ensures { result ≡ num_opcode self }
    {
        self as u8
    }

    /// The number instruction that has this opcode; `None` if it is the opcode of another instruction or of none.
    /// (Standard, 5.4.5)
    pub fn of_opcode(opcode: u8) -> Option<NumOp>
        ensures { result ≡ num_of_opcode opcode }
    {
        match opcode {
            0x45 => Some(NumOp::I32Eqz),
            0x46 => Some(NumOp::I32Eq),
            0x47 => Some(NumOp::I32Ne),
            0x48 => Some(NumOp::I32LtS),
            0x49 => Some(NumOp::I32LtU),
            0x4A => Some(NumOp::I32GtS),
            0x4B => Some(NumOp::I32GtU),
            0x4C => Some(NumOp::I32LeS),
            0x4D => Some(NumOp::I32LeU),
            0x4E => Some(NumOp::I32GeS),
            0x4F => Some(NumOp::I32GeU),
            0x50 => Some(NumOp::I64Eqz),
            0x51 => Some(NumOp::I64Eq),
            0x52 => Some(NumOp::I64Ne),
            0x53 => Some(NumOp::I64LtS),
            0x54 => Some(NumOp::I64LtU),
            0x55 => Some(NumOp::I64GtS),
            0x56 => Some(NumOp::I64GtU),
            0x57 => Some(NumOp::I64LeS),
            0x58 => Some(NumOp::I64LeU),
            0x59 => Some(NumOp::I64GeS),
            0x5A => Some(NumOp::I64GeU),
            0x67 => Some(NumOp::I32Clz),
            0x68 => Some(NumOp::I32Ctz),
            0x69 => Some(NumOp::I32Popcnt),
            0x6A => Some(NumOp::I32Add),
            0x6B => Some(NumOp::I32Sub),
            0x6C => Some(NumOp::I32Mul),
            0x6D => Some(NumOp::I32DivS),
            0x6E => Some(NumOp::I32DivU),
            0x6F => Some(NumOp::I32RemS),
            0x70 => Some(NumOp::I32RemU),
            0x71 => Some(NumOp::I32And),
            0x72 => Some(NumOp::I32Or),
            0x73 => Some(NumOp::I32Xor),
            0x74 => Some(NumOp::I32Shl),
            0x75 => Some(NumOp::I32ShrS),
            0x76 => Some(NumOp::I32ShrU),
            0x77 => Some(NumOp::I32Rotl),
            0x78 => Some(NumOp::I32Rotr),
            0x79 => Some(NumOp::I64Clz),
            0x7A => Some(NumOp::I64Ctz),
            0x7B => Some(NumOp::I64Popcnt),
            0x7C => Some(NumOp::I64Add),
            0x7D => Some(NumOp::I64Sub),
            0x7E => Some(NumOp::I64Mul),
            0x7F => Some(NumOp::I64DivS),
            0x80 => Some(NumOp::I64DivU),
            0x81 => Some(NumOp::I64RemS),
            0x82 => Some(NumOp::I64RemU),
            0x83 => Some(NumOp::I64And),
            0x84 => Some(NumOp::I64Or),
            0x85 => Some(NumOp::I64Xor),
            0x86 => Some(NumOp::I64Shl),
            0x87 => Some(NumOp::I64ShrS),
            0x88 => Some(NumOp::I64ShrU),
            0x89 => Some(NumOp::I64Rotl),
            0x8A => Some(NumOp::I64Rotr),
            0xA7 => Some(NumOp::I32WrapI64),
            0xAC => Some(NumOp::I64ExtendI32S),
            0xAD => Some(NumOp::I64ExtendI32U),
            0xC0 => Some(NumOp::I32Extend8S),
            0xC1 => Some(NumOp::I32Extend16S),
            0xC2 => Some(NumOp::I64Extend8S),
            0xC3 => Some(NumOp::I64Extend16S),
            0xC4 => Some(NumOp::I64Extend32S),
            _ => None,
        }
    }

    /// How many operands the instruction takes: 1 for tests, counts and conversions, 2 for all others.
    pub fn operands(&self) -> usize
        ensures { result ≡ length (num_operands self.now) }
    {
        self.operand_types().len()
    }

    /// The types of the instruction's operands, the topmost operand last. (Standard, 3.3.1)
    pub fn operand_types(&self) -> &'static [ValType]
        ensures { result.now ≡ num_operands self.now }
    {
        match self {
            NumOp::I32Eqz | NumOp::I32Clz | NumOp::I32Ctz | NumOp::I32Popcnt => &[ValType::I32],
            NumOp::I64ExtendI32S | NumOp::I64ExtendI32U => &[ValType::I32],
            NumOp::I32Extend8S | NumOp::I32Extend16S => &[ValType::I32],
            NumOp::I64Eqz | NumOp::I64Clz | NumOp::I64Ctz | NumOp::I64Popcnt => &[ValType::I64],
            NumOp::I32WrapI64 => &[ValType::I64],
            NumOp::I64Extend8S | NumOp::I64Extend16S | NumOp::I64Extend32S => &[ValType::I64],
            NumOp::I32Eq | NumOp::I32Ne | NumOp::I32LtS | NumOp::I32LtU => &[
                ValType::I32,
                ValType::I32,
            ],
            NumOp::I32GtS | NumOp::I32GtU | NumOp::I32LeS | NumOp::I32LeU => &[
                ValType::I32,
                ValType::I32,
            ],
            NumOp::I32GeS | NumOp::I32GeU | NumOp::I32Add | NumOp::I32Sub => &[
                ValType::I32,
                ValType::I32,
            ],
            NumOp::I32Mul | NumOp::I32DivS | NumOp::I32DivU | NumOp::I32RemS => &[
                ValType::I32,
                ValType::I32,
            ],
            NumOp::I32RemU | NumOp::I32And | NumOp::I32Or | NumOp::I32Xor => &[
                ValType::I32,
                ValType::I32,
            ],
            NumOp::I32Shl | NumOp::I32ShrS | NumOp::I32ShrU => &[ValType::I32, ValType::I32],
            NumOp::I32Rotl | NumOp::I32Rotr => &[ValType::I32, ValType::I32],
            _ => &[ValType::I64, ValType::I64],
        }
    }

    /// The type of the instruction's result. (Standard, 3.3.1)
    pub fn result_type(&self) -> ValType
        ensures { result ≡ num_result self.now }
    {
        match self {
            NumOp::I64Clz | NumOp::I64Ctz | NumOp::I64Popcnt | NumOp::I64Add => ValType::I64,
            NumOp::I64Sub | NumOp::I64Mul | NumOp::I64DivS | NumOp::I64DivU => ValType::I64,
            NumOp::I64RemS | NumOp::I64RemU | NumOp::I64And | NumOp::I64Or => ValType::I64,
            NumOp::I64Xor | NumOp::I64Shl | NumOp::I64ShrS | NumOp::I64ShrU => ValType::I64,
            NumOp::I64Rotl | NumOp::I64Rotr => ValType::I64,
            NumOp::I64ExtendI32S | NumOp::I64ExtendI32U => ValType::I64,
            NumOp::I64Extend8S | NumOp::I64Extend16S | NumOp::I64Extend32S => ValType::I64,
            NumOp::I32Eqz | NumOp::I32Eq | NumOp::I32Ne | NumOp::I32LtS => ValType::I32,
            NumOp::I32LtU | NumOp::I32GtS | NumOp::I32GtU | NumOp::I32LeS => ValType::I32,
            NumOp::I32LeU | NumOp::I32GeS | NumOp::I32GeU | NumOp::I64Eqz => ValType::I32,
            NumOp::I64Eq | NumOp::I64Ne | NumOp::I64LtS | NumOp::I64LtU => ValType::I32,
            NumOp::I64GtS | NumOp::I64GtU | NumOp::I64LeS | NumOp::I64LeU => ValType::I32,
            NumOp::I64GeS | NumOp::I64GeU | NumOp::I32Clz | NumOp::I32Ctz => ValType::I32,
            NumOp::I32Popcnt | NumOp::I32Add | NumOp::I32Sub | NumOp::I32Mul => ValType::I32,
            NumOp::I32DivS | NumOp::I32DivU | NumOp::I32RemS | NumOp::I32RemU => ValType::I32,
            NumOp::I32And | NumOp::I32Or | NumOp::I32Xor | NumOp::I32Shl => ValType::I32,
            NumOp::I32ShrS | NumOp::I32ShrU | NumOp::I32Rotl | NumOp::I32Rotr => ValType::I32,
            NumOp::I32WrapI64 | NumOp::I32Extend8S | NumOp::I32Extend16S => ValType::I32,
        }
    }

    /// The instruction's name in the text format. (Standard, 6.5.8)
    pub fn name(&self) -> &'static str
        ensures { result.now ≡ num_name self.now }
    {
        match self {
            NumOp::I32Eqz => "i32.eqz",
            NumOp::I32Eq => "i32.eq",
            NumOp::I32Ne => "i32.ne",
            NumOp::I32LtS => "i32.lt_s",
            NumOp::I32LtU => "i32.lt_u",
            NumOp::I32GtS => "i32.gt_s",
            NumOp::I32GtU => "i32.gt_u",
            NumOp::I32LeS => "i32.le_s",
            NumOp::I32LeU => "i32.le_u",
            NumOp::I32GeS => "i32.ge_s",
            NumOp::I32GeU => "i32.ge_u",
            NumOp::I64Eqz => "i64.eqz",
            NumOp::I64Eq => "i64.eq",
            NumOp::I64Ne => "i64.ne",
            NumOp::I64LtS => "i64.lt_s",
            NumOp::I64LtU => "i64.lt_u",
            NumOp::I64GtS => "i64.gt_s",
            NumOp::I64GtU => "i64.gt_u",
            NumOp::I64LeS => "i64.le_s",
            NumOp::I64LeU => "i64.le_u",
            NumOp::I64GeS => "i64.ge_s",
            NumOp::I64GeU => "i64.ge_u",
            NumOp::I32Clz => "i32.clz",
            NumOp::I32Ctz => "i32.ctz",
            NumOp::I32Popcnt => "i32.popcnt",
            NumOp::I32Add => "i32.add",
            NumOp::I32Sub => "i32.sub",
            NumOp::I32Mul => "i32.mul",
            NumOp::I32DivS => "i32.div_s",
            NumOp::I32DivU => "i32.div_u",
            NumOp::I32RemS => "i32.rem_s",
            NumOp::I32RemU => "i32.rem_u",
            NumOp::I32And => "i32.and",
            NumOp::I32Or => "i32.or",
            NumOp::I32Xor => "i32.xor",
            NumOp::I32Shl => "i32.shl",
            NumOp::I32ShrS => "i32.shr_s",
            NumOp::I32ShrU => "i32.shr_u",
            NumOp::I32Rotl => "i32.rotl",
            NumOp::I32Rotr => "i32.rotr",
            NumOp::I64Clz => "i64.clz",
            NumOp::I64Ctz => "i64.ctz",
            NumOp::I64Popcnt => "i64.popcnt",
            NumOp::I64Add => "i64.add",
            NumOp::I64Sub => "i64.sub",
            NumOp::I64Mul => "i64.mul",
            NumOp::I64DivS => "i64.div_s",
            NumOp::I64DivU => "i64.div_u",
            NumOp::I64RemS => "i64.rem_s",
            NumOp::I64RemU => "i64.rem_u",
            NumOp::I64And => "i64.and",
            NumOp::I64Or => "i64.or",
            NumOp::I64Xor => "i64.xor",
            NumOp::I64Shl => "i64.shl",
            NumOp::I64ShrS => "i64.shr_s",
            NumOp::I64ShrU => "i64.shr_u",
            NumOp::I64Rotl => "i64.rotl",
            NumOp::I64Rotr => "i64.rotr",
            NumOp::I32WrapI64 => "i32.wrap_i64",
            NumOp::I64ExtendI32S => "i64.extend_i32_s",
            NumOp::I64ExtendI32U => "i64.extend_i32_u",
            NumOp::I32Extend8S => "i32.extend8_s",
            NumOp::I32Extend16S => "i32.extend16_s",
            NumOp::I64Extend8S => "i64.extend8_s",
            NumOp::I64Extend16S => "i64.extend16_s",
            NumOp::I64Extend32S => "i64.extend32_s",
        }
    }
}

/// A value: the bits of an integer, as an unsigned number. (Standard, 4.2.1)
#[derive(Clone, Copy, Debug, PartialEq, Eq)]
pub enum Value {
    I32(u32),
    I64(u64),
}

impl Default for Value {
    ghost use Rattle.wasm_num.specs.declared.Value.TheVariants.{I32};

    ghost is_default = { λ v. v ≡ I32 0 };

    fn default() -> Value {
        Value::I32(0)
    }
}

/// The arguments or results of a call, in order. Contracts see a list. Up to four values need no allocation.
#[derive(Debug)]
pub struct Values {
    items: SmallVec<Value, 4>,
}

// Dropped by hand: each early return past a value of this type then costs one proof step instead of one per field.
impl Drop for Values {
    fn drop(self) {
        let Values { items: _items } = self;
    }
}

impl Model for Values {
    ghost use Rattle.std.specs.Prelude.{List, ◌≤◌};
    ghost use Rattle.wasm_num.specs.declared.Value.{Value as number};

    ghost Value = { List number };

    ghost view = { λ a. a.items.items };

    ghost invariant = { λ a. 4 ≤ a.items.capacity };
}

impl Values {
    ghost use Rattle.std.specs.Prelude.{◌<◌, [], ◌∷◌, ◌++◌, OnOk, OnErr, IsOk, slice_get};

    /// No values. Allocates nothing.
    pub fn new(alloc: Global) -> Values
        ensures { result ≡ [] }
    {
        Values {
            items: SmallVec::new(alloc),
        }
    }

    /// Appends a value. `NoMemory` if four or more values are there already and memory runs out; the values are then as
    /// they were.
    pub fn push(&mut self, value: Value) -> Result<(), NoMemory>
        ensures ok { OnOk result (self.new ≡ self.old ++ value ∷ []) }
        ensures succeeds { length self.old < 4 → IsOk result }
        ensures err { OnErr result (self.new ≡ self.old) }
    {
        self.items.push(value)?;
        Ok(())
    }

    /// The value at `index`, counted from 0; `None` if `index` is past the end.
    pub fn get(&self, index: usize) -> Option<Value>
        ensures { result ≡ slice_get self.now index }
    {
        self.items.as_slice().get(index).copied()
    }

    /// How many values there are.
    pub fn len(&self) -> usize
        ensures { result ≡ length self.now }
    {
        self.items.len()
    }
}

/// Why a number instruction traps. (Standard, 4.3.2)
#[derive(Clone, Copy, Debug, PartialEq, Eq)]
pub enum NumTrap {
    DivideByZero,
    Overflow,
}
