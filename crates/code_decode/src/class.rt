// Opcodes, by what follows them.

ghost use Rattle.std.specs.Prelude.{◌≡◌};
ghost use Rattle.module_ast.specs.Binary.{listed_shape, shape_at};
ghost use Rattle.module_ast.specs.Structure.{instr_of};
ghost use Rattle.code_decode.specs.Classes.{bare_plain, index_plain, access_plain, shape_of};

use module_ast::code::Instr;
use module_ast::ops::{LoadOp, MemArg, StoreOp};
use wasm_num::NumOp;

/// An instruction without operands behind its opcode. A memory instruction of this kind has a zero byte there.
#[derive(Clone, Copy)]
pub enum Bare {
    Unreachable,
    Nop,
    Return,
    Drop,
    Select,
    MemorySize,
    MemoryGrow,
    Num(NumOp),
}

/// An instruction with an index behind its opcode.
#[derive(Clone, Copy)]
pub enum Indexed {
    Br,
    BrIf,
    Call,
    LocalGet,
    LocalSet,
    LocalTee,
    GlobalGet,
    GlobalSet,
}

/// A load or store.
#[derive(Clone, Copy)]
pub enum Access {
    Load(LoadOp),
    Store(StoreOp),
}

/// An instruction without a nested sequence, by what follows its opcode.
#[derive(Clone, Copy)]
pub enum Operands {
    Bare(Bare),
    Index(Indexed),
    Table,
    Indirect,
    ZeroByte(Bare),
    Arg(Access),
    Small,
    Wide,
}

/// A floating-point instruction, by what follows its opcode.
#[derive(Clone, Copy)]
pub enum FloatOperands {
    Nothing,
    Arg,
    FourBytes,
    EightBytes,
}

/// An instruction that opens a sequence. A block type follows its opcode.
#[derive(Clone, Copy)]
pub enum Opening {
    Block,
    Loop,
    If,
}

/// What begins with an opcode, and so what follows the opcode. `Nothing` is the class of bytes that are no opcode.
#[derive(Clone, Copy)]
pub enum Class {
    Nothing,
    Plain(Operands),
    Float(FloatOperands),
    Opens(Opening),
    Else,
    End,
}

impl Bare {
    /// The instruction as the program has it.
    pub fn instr(self) -> Instr
        ensures { result ≡ instr_of (bare_plain self) }
    {
        match self {
            Bare::Unreachable => Instr::Unreachable,
            Bare::Nop => Instr::Nop,
            Bare::Return => Instr::Return,
            Bare::Drop => Instr::Drop,
            Bare::Select => Instr::Select,
            Bare::MemorySize => Instr::MemorySize,
            Bare::MemoryGrow => Instr::MemoryGrow,
            Bare::Num(op) => Instr::Num(op),
        }
    }
}

impl Indexed {
    /// The instruction with this index, as the program has it.
    pub fn instr(self, index: u32) -> Instr
        ensures { result ≡ instr_of (index_plain self index) }
    {
        match self {
            Indexed::Br => Instr::Br(index),
            Indexed::BrIf => Instr::BrIf(index),
            Indexed::Call => Instr::Call(index),
            Indexed::LocalGet => Instr::LocalGet(index),
            Indexed::LocalSet => Instr::LocalSet(index),
            Indexed::LocalTee => Instr::LocalTee(index),
            Indexed::GlobalGet => Instr::GlobalGet(index),
            Indexed::GlobalSet => Instr::GlobalSet(index),
        }
    }
}

impl Access {
    /// The instruction with this alignment and offset, as the program has it.
    pub fn instr(self, arg: MemArg) -> Instr
        ensures { result ≡ instr_of (access_plain self arg) }
    {
        match self {
            Access::Load(op) => Instr::Load(op, arg),
            Access::Store(op) => Instr::Store(op, arg),
        }
    }
}

/// What begins with this opcode. (Standard, 5.4)
pub fn class_of(opcode: u8) -> Class
    ensures { shape_at opcode ≡ shape_of result }
{
    match opcode {
        0x28..=0x35 => match LoadOp::of_opcode(opcode) {
            Some(op) => Class::Plain(Operands::Arg(Access::Load(op))),
            None => Class::Float(FloatOperands::Arg),
        },
        0x36..=0x3E => match StoreOp::of_opcode(opcode) {
            Some(op) => Class::Plain(Operands::Arg(Access::Store(op))),
            None => Class::Float(FloatOperands::Arg),
        },
        0x45..=0xFF => match NumOp::of_opcode(opcode) {
            Some(op) => Class::Plain(Operands::Bare(Bare::Num(op))),
            None if opcode <= 0xBF => Class::Float(FloatOperands::Nothing),
            None => listed(opcode),
        },
        _ => listed(opcode),
    }
}

// The class of an opcode that is of no load, store or number instruction.
fn listed(opcode: u8) -> Class
    ensures { listed_shape opcode ≡ shape_of result }
{
    match opcode {
        0x00 => Class::Plain(Operands::Bare(Bare::Unreachable)),
        0x01 => Class::Plain(Operands::Bare(Bare::Nop)),
        0x02 => Class::Opens(Opening::Block),
        0x03 => Class::Opens(Opening::Loop),
        0x04 => Class::Opens(Opening::If),
        0x05 => Class::Else,
        0x0B => Class::End,
        0x0C => Class::Plain(Operands::Index(Indexed::Br)),
        0x0D => Class::Plain(Operands::Index(Indexed::BrIf)),
        0x0E => Class::Plain(Operands::Table),
        0x0F => Class::Plain(Operands::Bare(Bare::Return)),
        0x10 => Class::Plain(Operands::Index(Indexed::Call)),
        0x11 => Class::Plain(Operands::Indirect),
        0x1A => Class::Plain(Operands::Bare(Bare::Drop)),
        0x1B => Class::Plain(Operands::Bare(Bare::Select)),
        0x20 => Class::Plain(Operands::Index(Indexed::LocalGet)),
        0x21 => Class::Plain(Operands::Index(Indexed::LocalSet)),
        0x22 => Class::Plain(Operands::Index(Indexed::LocalTee)),
        0x23 => Class::Plain(Operands::Index(Indexed::GlobalGet)),
        0x24 => Class::Plain(Operands::Index(Indexed::GlobalSet)),
        0x3F => Class::Plain(Operands::ZeroByte(Bare::MemorySize)),
        0x40 => Class::Plain(Operands::ZeroByte(Bare::MemoryGrow)),
        0x41 => Class::Plain(Operands::Small),
        0x42 => Class::Plain(Operands::Wide),
        0x43 => Class::Float(FloatOperands::FourBytes),
        0x44 => Class::Float(FloatOperands::EightBytes),
        _ => Class::Nothing,
    }
}
