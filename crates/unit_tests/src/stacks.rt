// Steps whose answers are known from the standard's validation algorithm.

use ctrl_stack::{CtrlStack, StackFault, Types};
use std::alloc::{AllocError, Global};
use std::test::Fail;
use wasm_num::{BlockKind, ValType};

// The types that blocks of the rows begin or end with.
#[derive(Clone, Copy)]
enum Few {
    No,
    One,
    Two,
}

#[derive(Clone, Copy)]
enum Step {
    Push(Option<ValType>),
    Pop(Option<ValType>),
    Open(BlockKind, Few, Few),
    Close,
    Dead,
}

use Few::{No, One, Two};
use Step::{Close, Dead, Open, Pop, Push};

const INT: Option<ValType> = Some(ValType::I32);

const LONG: Option<ValType> = Some(ValType::I64);

fn types(alloc: Global, few: Few) -> Result<Types, AllocError> {
    let items: &[ValType] = match few {
        No => &[],
        One => &[ValType::I32],
        Two => &[ValType::I32, ValType::I64],
    };
    Ok(Types::from_vec(Vec::from_slice(alloc, items)?))
}

// What a step answers: an operand's type, or an unknown one where it answers none.
fn answer(alloc: Global, stack: &mut CtrlStack, step: Step) -> Result<Option<ValType>, StackFault> {
    match step {
        Push(ty) => stack.push(ty)?,
        Pop(ty) => return stack.pop(ty),
        Open(kind, starts, results) => {
            stack.push_block(kind, types(alloc, starts)?, types(alloc, results)?)?
        }
        Close => drop(stack.pop_block()?),
        Dead => {
            if stack.label(0).is_some() {
                stack.mark_dead();
            }
        }
    }
    Ok(None)
}

// What the last step answers, none where it is a mismatch, and the height then.
fn run(alloc: Global, steps: &[Step]) -> Result<(Option<Option<ValType>>, usize), AllocError> {
    let mut stack = CtrlStack::new(alloc, types(alloc, No)?)?;
    let mut last = Some(None);
    for step in steps {
        last = match answer(alloc, &mut stack, *step) {
            Ok(ty) => Some(ty),
            Err(StackFault::Mismatch) => None,
            Err(StackFault::NoMemory) => return Err(AllocError),
        };
    }
    Ok((last, stack.height()))
}

// Steps, what the last of them answers, and the height then.
static ROWS: [(&[Step], Option<Option<ValType>>, usize); 16] = [
    (&[Push(INT), Pop(INT)], Some(INT), 0),
    (&[Push(INT), Pop(None)], Some(INT), 0),
    (&[Push(None), Pop(LONG)], Some(LONG), 0),
    (&[Push(INT), Pop(LONG)], None, 1),
    (&[Pop(INT)], None, 0),
    // any operand is found at the base of a dead frame
    (&[Push(LONG), Dead, Pop(INT)], Some(INT), 0),
    (&[Dead, Push(LONG), Pop(INT)], None, 1),
    // the operands below an open block cannot be taken, its start types can
    (
        &[Push(INT), Open(BlockKind::Block, No, No), Pop(None)],
        None,
        1,
    ),
    (
        &[Push(INT), Open(BlockKind::Loop, One, No), Pop(INT)],
        Some(INT),
        0,
    ),
    (&[Push(INT), Open(BlockKind::Loop, Two, No)], None, 1),
    (
        &[Dead, Push(LONG), Open(BlockKind::If, Two, No), Pop(LONG)],
        Some(LONG),
        1,
    ),
    // closing takes the results, and refuses what else is left
    (
        &[Open(BlockKind::Else, No, One), Push(INT), Close, Pop(INT)],
        None,
        0,
    ),
    (
        &[Open(BlockKind::Else, No, One), Push(INT), Push(INT), Close],
        None,
        2,
    ),
    (
        &[
            Push(LONG),
            Open(BlockKind::Block, No, Two),
            Push(INT),
            Dead,
            Close,
        ],
        Some(None),
        1,
    ),
    // no frame is left
    (&[Close, Close], None, 0),
    (&[Close, Open(BlockKind::Block, No, No)], None, 0),
];

#[test]
fn follows_the_rules(rt: HostRuntime) -> Result<(), Fail> {
    for &(steps, last, height) in &ROWS {
        assert_eq!(rt; run(rt.alloc(), steps)?, (last, height));
    }
    Ok(())
}
