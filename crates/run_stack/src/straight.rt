// Instructions that do not branch, call or open a block.

ghost use Rattle.std.specs.Prelude.{Decides, IfOk, OnErr, List, length, None, ◌≡◌};
ghost use Rattle.wasm_num.specs.Shapes.{num_operands};
ghost use Rattle.wasm_sem.specs.Types.{Value as number};
ghost use Rattle.run_store.specs.Held.{Held};
ghost use Rattle.run_stack.specs.Straight.{Moment, IsMomentBefore, IsVariable, IsAccess, IsNumber, IsSimple, reduct_at, IsMomentBehind};

use crate::stack::Stack;
use module_ast::code::Instr;
use run_store::globals::Globals;
use run_store::memory::Memory;
use std::alloc::AllocError;
use wasm_num::{NumOp, NumTrap, Value, binary, unary};
use wasm_sem::Trap;

// `drop` and variables. (Standard, 4.4.2, 4.4.3)
#[tactic(auto, using(std::proofs::lemmas::Grind::common_steps))]
#[inline(always)]
fn variable(stack: &mut Stack, globals: &mut Globals, instr: &Instr)
    requires kind { IsVariable instr.now }
    requires before { (m : Held) × (x : Moment) × IsMomentBefore stack.old m globals.old instr.now x }
    ensures behind { (m : Held) (x : Moment) → IsMomentBefore stack.old m globals.old instr.now x → IsMomentBehind x (reduct_at x instr.now) None stack.new m globals.new }
    ensures value_room { stack.new.value_room ≡ stack.old.value_room }
    ensures spot_room { stack.new.spot_room ≡ stack.old.spot_room }
{
    match instr {
        Instr::Drop => {
            stack.pop();
        }
        Instr::LocalGet(index) => {
            let value = stack.local(*index);
            stack.push(value);
        }
        Instr::LocalSet(index) => {
            let value = stack.pop();
            stack.set_local(*index, value);
        }
        Instr::LocalTee(index) => {
            let value = stack.top();
            stack.set_local(*index, value);
        }
        Instr::GlobalGet(index) => {
            let Some(value) = globals.get(*index) else {
                unreachable!();
            };
            stack.push(value);
        }
        Instr::GlobalSet(index) => {
            let value = stack.pop();
            globals.set(*index, value);
        }
        _ => unreachable!(),
    }
}

// Loads, stores, and the size of the memory. Only `memory.grow` takes memory. (Standard, 4.4.4)
#[tactic(auto, using(std::proofs::lemmas::Grind::common_steps))]
#[inline(always)]
fn access(stack: &mut Stack, memory: &mut Memory, instr: &Instr) -> Result<Option<Trap>, AllocError>
    requires kind { IsAccess instr.now }
    requires before { (g : List number) × (x : Moment) × IsMomentBefore stack.old memory.old g instr.now x }
    ensures ok { (g : List number) (x : Moment) → IsMomentBefore stack.old memory.old g instr.now x → IfOk result (λ trap. IsMomentBehind x (reduct_at x instr.now) trap stack.new memory.new g) }
    ensures grows { OnErr result (instr.now ≡ Instr.MemoryGrow) }
    ensures stack { OnErr result (stack.new ≡ stack.old) }
    ensures memory { OnErr result (memory.new ≡ memory.old) }
    ensures value_room { stack.new.value_room ≡ stack.old.value_room }
    ensures spot_room { stack.new.spot_room ≡ stack.old.spot_room }
{
    match instr {
        Instr::Load(op, place) => {
            let address = stack.pop_i32();
            match memory.load(*op, address, place.offset) {
                Ok(value) => {
                    stack.push(value);
                    Ok(None)
                }
                Err(_) => Ok(Some(Trap::OutOfBounds)),
            }
        }
        Instr::Store(op, place) => {
            let value = stack.pop();
            let address = stack.pop_i32();
            match memory.store(*op, address, place.offset, value) {
                Ok(()) => Ok(None),
                Err(_) => Ok(Some(Trap::OutOfBounds)),
            }
        }
        Instr::MemorySize => {
            stack.push(Value::I32(memory.pages()));
            Ok(None)
        }
        Instr::MemoryGrow => {
            let Value::I32(by) = stack.top() else {
                unreachable!();
            };
            let answer = memory.grow(by)?;
            stack.pop();
            stack.push(Value::I32(answer.unwrap_or(u32::MAX)));
            Ok(None)
        }
        _ => unreachable!(),
    }
}

// Whether the instruction takes one operand. This `match` is quicker than a look at the list of operand types.
#[inline(always)]
fn is_unary(op: NumOp) -> bool
    ensures { Decides result (length (num_operands op) ≡ 1) }
{
    matches!(
        op,
        NumOp::I32Eqz
            | NumOp::I32Clz
            | NumOp::I32Ctz
            | NumOp::I32Popcnt
            | NumOp::I64ExtendI32S
            | NumOp::I64ExtendI32U
            | NumOp::I32Extend8S
            | NumOp::I32Extend16S
            | NumOp::I64Eqz
            | NumOp::I64Clz
            | NumOp::I64Ctz
            | NumOp::I64Popcnt
            | NumOp::I32WrapI64
            | NumOp::I64Extend8S
            | NumOp::I64Extend16S
            | NumOp::I64Extend32S
    )
}

// A number instruction. (Standard, 4.4.1)
#[tactic(auto, using(std::proofs::lemmas::Grind::common_steps))]
#[inline(always)]
fn number_op(stack: &mut Stack, op: NumOp) -> Option<Trap>
    requires before { (m : Held) × (g : List number) × (x : Moment) × IsMomentBefore stack.old m g (Instr.Num op) x }
    ensures behind { (m : Held) (g : List number) (x : Moment) → IsMomentBefore stack.old m g (Instr.Num op) x → IsMomentBehind x (reduct_at x (Instr.Num op)) result stack.new m g }
    ensures value_room { stack.new.value_room ≡ stack.old.value_room }
    ensures spot_room { stack.new.spot_room ≡ stack.old.spot_room }
{
    if is_unary(op) {
        let operand = stack.pop();
        stack.push(unary(op, operand));
        return None;
    }
    let second = stack.pop();
    let first = stack.pop();
    match binary(op, first, second) {
        Ok(value) => {
            stack.push(value);
            None
        }
        Err(NumTrap::DivideByZero) => Some(Trap::DivideByZero),
        Err(NumTrap::Overflow) => Some(Trap::Overflow),
    }
}

// Numbers, `select`, `nop` and `unreachable`. (Standard, 4.4.1, 4.4.2, 4.4.5)
#[inline(always)]
fn number(stack: &mut Stack, instr: &Instr) -> Option<Trap>
    requires kind { IsNumber instr.now }
    requires before { (m : Held) × (g : List number) × (x : Moment) × IsMomentBefore stack.old m g instr.now x }
    ensures behind { (m : Held) (g : List number) (x : Moment) → IsMomentBefore stack.old m g instr.now x → IsMomentBehind x (reduct_at x instr.now) result stack.new m g }
    ensures value_room { stack.new.value_room ≡ stack.old.value_room }
    ensures spot_room { stack.new.spot_room ≡ stack.old.spot_room }
{
    match instr {
        Instr::Unreachable => return Some(Trap::Unreachable),
        Instr::Nop => {}
        Instr::Select => {
            let condition = stack.pop_i32();
            let second = stack.pop();
            if condition == 0 {
                stack.pop();
                stack.push(second);
            }
        }
        Instr::I32Const(number) => stack.push(Value::I32(number.cast_unsigned())),
        Instr::I64Const(number) => stack.push(Value::I64(number.cast_unsigned())),
        Instr::Num(op) => return number_op(stack, *op),
        _ => unreachable!(),
    }
    None
}

/// Executes an instruction that does not branch, call or open a block; answers why it traps, if it does. Takes memory
/// only at a `memory.grow`; after an `Err` all is as before. (Standard, 4.4.1 to 4.4.5)
#[inline(always)]
pub(crate) fn straight(
    stack: &mut Stack,
    memory: &mut Memory,
    globals: &mut Globals,
    instr: &Instr,
) -> Result<Option<Trap>, AllocError>
    requires kind { IsSimple instr.now }
    requires before { (x : Moment) × IsMomentBefore stack.old memory.old globals.old instr.now x }
    ensures ok { (x : Moment) → IsMomentBefore stack.old memory.old globals.old instr.now x → IfOk result (λ trap. IsMomentBehind x (reduct_at x instr.now) trap stack.new memory.new globals.new) }
    ensures grows { OnErr result (instr.now ≡ Instr.MemoryGrow) }
    ensures stack { OnErr result (stack.new ≡ stack.old) }
    ensures memory { OnErr result (memory.new ≡ memory.old) }
    ensures globals { OnErr result (globals.new ≡ globals.old) }
    ensures value_room { stack.new.value_room ≡ stack.old.value_room }
    ensures spot_room { stack.new.spot_room ≡ stack.old.spot_room }
{
    match instr {
        Instr::Load(_, _) | Instr::Store(_, _) | Instr::MemorySize | Instr::MemoryGrow => {
            access(stack, memory, instr)
        }
        Instr::Unreachable
        | Instr::Nop
        | Instr::Select
        | Instr::I32Const(_)
        | Instr::I64Const(_)
        | Instr::Num(_) => Ok(number(stack, instr)),
        _ => {
            variable(stack, globals, instr);
            Ok(None)
        }
    }
}
