// The mode `tree`.

ghost use Rattle.std.specs.Prelude.{◌≡◌, ◌++◌, List, IfErr, IfOk, OnOk, Some, flat_map, string_bytes};
ghost use Rattle.outside_io.specs.Outside.{ShelfState};
ghost use Rattle.wasm_sem.specs.Execution.{IsScriptInRange};
ghost use Rattle.run_session.specs.Sessions.{told_outcome};
ghost use Rattle.static_info.specs.Belongs.{Belongs};
ghost use Rattle.static_info.specs.Form.{IsWellFormed};
ghost use Rattle.analyses.specs.Tools.{ToolState};
ghost use Rattle.app_load.specs.Outcomes.{Yields};
ghost use Rattle.app_load.specs.Texts.{few_groups_text, not_nested_text};
ghost use Rattle.app_runs.specs.RunTexts.{run_status, run_text};
ghost use Rattle.app_runs.specs.Treeing.{node_text, nodes_text, tells_brackets, tree_line};
ghost use Rattle.wasabi_app.specs.Modes.Tree.{tree_informed, tree_mode, tree_plan, tree_scripted, treed_plan};
ghost use Rattle.wasabi_app.specs.Words.{given_of};

use crate::words::Given;
use app_load::{Printed, Refusal, Status, bad_words, load, load_info, load_script, refused};
use app_runs::{Treed, TreedFault, run_text, status_of, tree_run, unlinked};
use call_tree::Node;
use hook_select::GroupName;
use module_ast::module::{LONGEST_FILE, Limits, Loc};
use outside_io::Shelf;
use static_info::Info;
use std::alloc::{AllocError, Global};
use std::thread::Threads;
use wasm_sem::Script;
use wasm_valid::ValidModule;

/// Reads the subject, the information on its original and then the script, and runs the subject. The answer is what the
/// start and the calls came to, and after that the paths of calls. No name of the shelf is changed.
///
/// An `Err` comes if the words give no information or no script, if one of the three files is refused, if the
/// information does not have both groups `begin` and `end` (status 21), if the subject and the script do not link, if
/// the events do not nest (status 22), or if memory runs out.
pub(crate) fn tree<R: Threads + Sync, S: Shelf>(
    rt: &R,
    alloc: Global,
    given: &Given<'_>,
    shelf: &mut S,
) -> Result<Printed, Refusal>
    ensures { (tools : List ToolState) → Yields (tree_mode.plan (given_of given.now)) (S.seen shelf.old) (S.seen shelf.new) tools tools result }
{
    let Some(info) = given.info else {
        return Err(bad_words(alloc));
    };
    let Some(script) = given.script else {
        return Err(bad_words(alloc));
    };
    tree_by(rt, alloc, given, info, script, shelf)
}

// Whether the information has both groups `begin` and `end`.
fn tells_brackets(info: &Info) -> bool
    ensures { result ≡ tells_brackets info.now }
{
    info.groups.has(GroupName::Begin) && info.groups.has(GroupName::End)
}

fn tree_by<R: Threads + Sync, S: Shelf>(
    rt: &R,
    alloc: Global,
    given: &Given<'_>,
    info: &str,
    script: &str,
    shelf: &mut S,
) -> Result<Printed, Refusal>
    ensures { (tools : List ToolState) → Yields (Some (tree_plan given.now.subject.now info.now script.now)) (S.seen shelf.old) (S.seen shelf.new) tools tools result }
{
    match load(
        rt,
        alloc,
        given.subject,
        LONGEST_FILE,
        &Limits::wide(),
        given.jobs,
        shelf,
    ) {
        Ok(module) => tree_module(alloc, info, script, &module, shelf),
        Err(refusal) => Err(refusal),
    }
}

fn tree_module<S: Shelf>(
    alloc: Global,
    info: &str,
    script: &str,
    m: &ValidModule,
    shelf: &mut S,
) -> Result<Printed, Refusal>
    ensures { (tools : List ToolState) → Yields (Some (tree_informed info.now script.now m.now)) (S.seen shelf.old) (S.seen shelf.new) tools tools result }
{
    let info = load_info(alloc, info, m, shelf)?;
    tree_told(alloc, script, m, &info, shelf)
}

// Checks that the information has both groups, reads the script, and runs a module by it.
fn tree_told<S: Shelf>(
    alloc: Global,
    script: &str,
    m: &ValidModule,
    info: &Info,
    shelf: &mut S,
) -> Result<Printed, Refusal>
    requires formed { IsWellFormed info.now }
    requires belongs { Belongs info.now m.now }
    ensures { (tools : List ToolState) → Yields (Some (tree_scripted script.now m.now info.now)) (S.seen shelf.old) (S.seen shelf.new) tools tools result }
{
    if !tells_brackets(info) {
        return Err(refused(Status::FewGroups, few_groups_line(alloc)));
    }
    let script = load_script(alloc, script, shelf)?;
    tree_loaded(alloc, m, info, script)
}

fn few_groups_line(alloc: Global) -> Result<String, AllocError>
    ensures { IfOk result (λ line. string_bytes line ≡ few_groups_text) }
{
    String::from_str(alloc, "error 21: information lacks begin or end\n")
}

// Runs a module by a script. A refusal tells why the two do not link, or where the events do not nest.
fn tree_loaded(
    alloc: Global,
    m: &ValidModule,
    info: &Info,
    script: Script,
) -> Result<Printed, Refusal>
    requires range { IsScriptInRange script }
    requires formed { IsWellFormed info.now }
    requires belongs { Belongs info.now m.now }
    ensures { (at : ShelfState) (tools : List ToolState) → Yields (Some (treed_plan m.now info.now script)) at at tools tools result }
{
    match tree_run(alloc, m, info, &script) {
        Ok(treed) => told(alloc, &script, &treed),
        Err(TreedFault::NotNested(loc)) => Err(refused(
            Status::NotNested,
            not_nested_line(alloc, loc),
        )),
        Err(TreedFault::Unlinked(fault)) => Err(unlinked(alloc, script, fault)),
    }
}

fn not_nested_line(alloc: Global, loc: Loc) -> Result<String, AllocError>
    ensures { IfOk result (λ line. string_bytes line ≡ not_nested_text loc) }
{
    let Loc { func, instr } = loc;
    format!(in alloc; "error 22: events do not nest at {func}:{instr}\n")
}

fn push_node(text: &mut String, node: &Node) -> Result<(), AllocError>
    ensures { OnOk result (string_bytes text.new ≡ string_bytes text.old ++ node_text node.now) }
{
    let Node { depth, func, count } = *node;
    write!(text, "node {depth} {func} {count}\n")
}

fn push_nodes(text: &mut String, nodes: &[Node]) -> Result<(), AllocError>
    ensures { OnOk result (string_bytes text.new ≡ string_bytes text.old ++ flat_map node_text nodes.now) }
{
    for node in nodes {
        push_node(text, node)?;
    }
    Ok(())
}

fn push_count(text: &mut String, count: usize) -> Result<(), AllocError>
    ensures { OnOk result (string_bytes text.new ≡ string_bytes text.old ++ tree_line count) }
{
    write!(text, "tree {count}\n")
}

// The text of a run, and after that its paths.
fn tree_text(alloc: Global, script: &Script, treed: &Treed) -> Result<String, AllocError>
    ensures { IfOk result (λ text. string_bytes text ≡ run_text script.now.calls (told_outcome treed.now.outcome) ++ nodes_text treed.now.nodes.items) }
{
    let mut text = run_text(alloc, script.calls.as_slice(), &treed.outcome)?;
    push_count(&mut text, treed.nodes.len())?;
    push_nodes(&mut text, treed.nodes.as_slice())?;
    Ok(text)
}

// The answer with `tree_text`, and the status of the run.
fn told(alloc: Global, script: &Script, treed: &Treed) -> Result<Printed, Refusal>
    ensures status { IfOk result (λ t. t.status ≡ run_status (told_outcome treed.now.outcome)) }
    ensures text { IfOk result (λ t. t.text.items ≡ run_text script.now.calls (told_outcome treed.now.outcome) ++ nodes_text treed.now.nodes.items) }
    ensures no_memory { IfErr result (λ r. r ≡ Refusal.NoMemory) }
{
    let text = tree_text(alloc, script, treed)?;
    Ok(Printed {
        status: status_of(&treed.outcome),
        text: text.into_bytes(),
    })
}
