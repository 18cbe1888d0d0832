// Trees of calls: of small runs, of deep and of wide ones.

use call_tree::{Node, Tree, TreeFault};
use hook_select::Event;
use module_ast::module::Loc;
use std::alloc::Global;
use std::test::Fail;
use wasm_num::BlockKind;

// An entry, or the begin or the end of a function.
#[derive(Clone, Copy)]
enum Step {
    Enter,
    Begin(u32),
    End(u32),
}

use Step::{Begin, End, Enter};

fn take_begin(tree: &mut Tree, func: u32) -> Result<(), TreeFault> {
    if tree.taken() >= 1_000_000 {
        return Err(TreeFault::NoMemory);
    }
    let loc = Loc { func, instr: -1 };
    let kind = BlockKind::Function;
    tree.take(&Event::Begin { loc, kind })
}

fn take_end(tree: &mut Tree, func: u32) -> Result<(), TreeFault> {
    if tree.taken() >= 1_000_000 {
        return Err(TreeFault::NoMemory);
    }
    let loc = Loc { func, instr: 5 };
    let kind = BlockKind::Function;
    let begin = -1;
    tree.take(&Event::End { loc, kind, begin })
}

// Makes a step; a test has far fewer than there may be.
fn take(tree: &mut Tree, step: Step) -> Result<(), TreeFault> {
    match step {
        Enter => {
            tree.enter();
            Ok(())
        }
        Begin(func) => take_begin(tree, func),
        End(func) => take_end(tree, func),
    }
}

// Whether a tree has nodes of these depths, functions and counts.
fn has(tree: &Tree, nodes: &[(u64, u32, u64)]) -> Result<bool, Fail> {
    let found = tree.rows()?;
    Ok(
        found
            .iter()
            .map(|node| (node.depth, node.func, node.count))
            .eq(nodes.iter().copied()),
    )
}

// Steps, and the depth, the function and the count of each node then.
static ROWS: [(&[Step], &[(u64, u32, u64)]); 4] = [
    (&[], &[]),
    // a function that calls itself until the calls are too deep, in one call of the script
    (
        &[Enter, Begin(0), Begin(0), Begin(0)],
        &[(0, 0, 1), (1, 0, 1), (2, 0, 1)],
    ),
    // four calls of function 2, three of which trap; the last calls function 0
    (
        &[
            Enter,
            Begin(2),
            Enter,
            Begin(2),
            Enter,
            Begin(2),
            Enter,
            Begin(2),
            Begin(0),
            End(0),
            End(2),
        ],
        &[(0, 2, 4), (1, 0, 1)],
    ),
    // a path stands before those that go on from it, and these by rising function, whichever came first
    (
        &[
            Begin(7),
            Begin(5),
            End(5),
            Begin(2),
            Begin(9),
            End(9),
            End(2),
            Begin(5),
            Begin(7),
            End(7),
            End(5),
            End(7),
            Begin(3),
        ],
        &[
            (0, 3, 1),
            (0, 7, 1),
            (1, 2, 1),
            (2, 9, 1),
            (1, 5, 2),
            (2, 7, 1),
        ],
    ),
];

// Whether a tree has these nodes behind these steps.
fn grows(alloc: Global, steps: &[Step], nodes: &[(u64, u32, u64)]) -> Result<bool, Fail> {
    let mut tree = Tree::new(alloc);
    for step in steps {
        take(&mut tree, *step)?;
    }
    has(&tree, nodes)
}

#[test]
fn paths_of_calls(rt: HostRuntime) -> Result<(), Fail> {
    for &(steps, nodes) in &ROWS {
        assert!(rt; grows(rt.alloc(), steps, nodes)?);
    }
    Ok(())
}

fn node(depth: u64, func: u32, count: u64) -> Option<Node> {
    Some(Node { depth, func, count })
}

// Whether calls may be as deep as a script allows.
fn is_deep(tree: &mut Tree) -> Result<bool, Fail> {
    for _ in 0..100_000 {
        take(tree, Begin(1))?;
    }
    Ok(tree.rows()?.last().copied() == node(99_999, 1, 1))
}

fn widen(tree: &mut Tree) -> Result<(), TreeFault> {
    take(tree, Enter)?;
    take(tree, Begin(0))?;
    for func in 0..100_000 {
        take(tree, Begin(func))?;
        take(tree, End(func))?;
    }
    Ok(())
}

// Whether as many may stand beside each other.
fn is_wide(tree: &mut Tree) -> Result<bool, Fail> {
    widen(tree)?;
    let nodes = tree.rows()?;
    Ok(nodes.len() == 200_001 && nodes.get(100_000).copied() == node(1, 99_999, 1))
}

#[test]
fn deep_and_wide(rt: HostRuntime) -> Result<(), Fail> {
    let mut tree = Tree::new(rt.alloc());
    assert!(rt; is_deep(&mut tree)?);
    assert!(rt; is_wide(&mut tree)?);
    Ok(())
}
