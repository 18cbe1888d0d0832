// A command that is run with four fresh analyses.

ghost use Rattle.std.specs.Prelude.{◌≡◌, IfOk, OnErr, map};
ghost use Rattle.app_load.specs.Feeding.{fresh_tools};
ghost use Rattle.command_line.specs.Lines.{texts};
ghost use Rattle.wasabi_app.specs.Ended.{IsEnded};

use crate::app::run_app;
use analyses::{Analysis, Blocks, Branches, CallGraph, MemoryUse};
use outside_io::{Shelf, Sink};
use std::alloc::{AllocError, Global};
use std::thread::Threads;

/// Runs a command with four fresh analyses and answers its status, as [`run_app`] does. `IsEnded` has each clause of
/// `run_app`.
///
/// # Errors
///
/// An error comes if there is no memory for the analyses. In this case nothing was done.
pub fn run_with_analyses<R: Threads + Sync, S: Shelf, K: Sink>(
    rt: &R,
    alloc: Global,
    words: &[String],
    shelf: &mut S,
    out: &mut K,
) -> Result<u8, AllocError>
    ensures ended { IfOk result (IsEnded (texts words.now) (S.seen shelf.old) (S.seen shelf.new) (K.seen out.old) (K.seen out.new)) }
    ensures undone { OnErr result ((shelf.new ≡ shelf.old) × (out.new ≡ out.old)) }
{
    let mut tools: Vec<Box<dyn Analysis>> = Vec::new(alloc);
    tools.push(Box::new(alloc, Blocks::new(alloc))?)?;
    tools.push(Box::new(alloc, Branches::new(alloc))?)?;
    tools.push(Box::new(alloc, CallGraph::new(alloc))?)?;
    tools.push(Box::new(alloc, MemoryUse::new(alloc))?)?;
    Ok(run_fresh(rt, alloc, words, shelf, out, &mut tools))
}

/// Runs a command with four fresh analyses and answers its status. The status is 14 if there is no memory for the
/// analyses.
pub fn run_command<R: Threads + Sync, S: Shelf, K: Sink>(
    rt: &R,
    alloc: Global,
    words: &[String],
    shelf: &mut S,
    out: &mut K,
) -> u8
    ensures { IsEnded (texts words.now) (S.seen shelf.old) (S.seen shelf.new) (K.seen out.old) (K.seen out.new) result }
{
    run_with_analyses(rt, alloc, words, shelf, out).unwrap_or(14)
}

fn run_fresh<R: Threads + Sync, S: Shelf, K: Sink>(
    rt: &R,
    alloc: Global,
    words: &[String],
    shelf: &mut S,
    out: &mut K,
    tools: &mut Vec<Box<dyn Analysis>>,
) -> u8
    requires fresh { map state tools.old.items ≡ fresh_tools }
    ensures { IsEnded (texts words.now) (S.seen shelf.old) (S.seen shelf.new) (K.seen out.old) (K.seen out.new) result }
{
    run_app(rt, alloc, words, shelf, out, tools)
}
