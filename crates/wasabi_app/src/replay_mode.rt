// The mode `replay`.

ghost use Rattle.std.specs.Prelude.{◌≡◌, ◌≤◌, ◌^◌, All, List, [], ◌∷◌, OnErr, OnOk, Some, map, length, IfOk};
ghost use Rattle.outside_io.specs.Outside.{ShelfState};
ghost use Rattle.module_ast.specs.Validation.Limits.{longest_file};
ghost use Rattle.wasm_sem.specs.Types.{Event as EventSpec};
ghost use Rattle.trace_file.specs.Files.{IsTrace};
ghost use Rattle.analyses.specs.Tools.{ToolState};
ghost use Rattle.app_load.specs.Feeding.{AreFedPart, fed, fresh_tools};
ghost use Rattle.app_load.specs.Outcomes.{Yields};
ghost use Rattle.app_runs.specs.Feeding.{tallied, tally_of};
ghost use Rattle.wasabi_app.specs.Modes.Replay.{replay_mode, replayed_plan};
ghost use Rattle.wasabi_app.specs.Words.{given_of};

use crate::words::Given;
use analyses::Analysis;
use app_load::{Kinds, Printed, Refusal, Status, load_trace};
use app_runs::{Reports, Tally, give_all, with_reports};
use hook_select::Event;
use outside_io::Shelf;
use std::alloc::Global;
use std::slice::from_ref;
use trace_file::{ReadTraceFault, TraceReader};
use wasm_num::NoMemory;

/// Reads the subject, which is a trace, and gives its events to the fresh analyses of the kinds that are asked for. The
/// answer is the reports of these analyses. No name of the shelf is changed.
///
/// An `Err` comes if the trace could not be read, if its bytes are not a trace, or if memory runs out.
pub(crate) fn replay<S: Shelf>(
    alloc: Global,
    given: &Given<'_>,
    shelf: &mut S,
    tools: &mut Vec<Box<dyn Analysis>>,
) -> Result<Printed, Refusal>
    requires fresh { map state tools.old.items ≡ fresh_tools }
    ensures { Yields (replay_mode.plan (given_of given.now)) (S.seen shelf.old) (S.seen shelf.new)
        (map state tools.old.items) (map state tools.new.items) result }
{
    let bytes = load_trace(alloc, given.subject, shelf)?;
    replay_trace(alloc, bytes.as_slice(), given.kinds, tools)
}

// Gives the events of a trace to the analyses of these kinds. The answer is the reports of these analyses.
fn replay_trace(
    alloc: Global,
    bytes: &[u8],
    kinds: Kinds,
    tools: &mut Vec<Box<dyn Analysis>>,
) -> Result<Printed, Refusal>
    requires short { length bytes.now ≤ longest_file }
    requires fresh { map state tools.old.items ≡ fresh_tools }
    ensures ended { (es : List EventSpec) (at : ShelfState) → IsTrace bytes.now es → Yields (Some (replayed_plan kinds es)) at at
        (map state tools.old.items) (map state tools.new.items) result }
{
    match give_trace(alloc, bytes, kinds, tools) {
        Ok(tally) => {
            let wanted = Reports { kinds, tally };
            let text = with_reports(alloc, "", &wanted, tools)?;
            Ok(Printed {
                status: Status::Done,
                text,
            })
        }
        Err(_) => Err(Refusal::NoMemory),
    }
}

// Gives the events of a trace to the analyses of these kinds, one event after the other, and counts the events. An
// `Err` comes if there is no memory. In this case each analysis has taken a first part of the events.
fn give_trace(
    alloc: Global,
    bytes: &[u8],
    pick: Kinds,
    tools: &mut Vec<Box<dyn Analysis>>,
) -> Result<Tally, ReadTraceFault>
    requires short { length bytes.now ≤ longest_file }
    requires fresh { map state tools.old.items ≡ fresh_tools }
    ensures fed { IfOk result (λ tally. (es : List EventSpec) × IsTrace bytes.now es
        × (tally ≡ tally_of es) × (map state tools.new.items ≡ fed pick es (map state tools.old.items))) }
    ensures part { OnErr result ((es : List EventSpec) → IsTrace bytes.now es
        → AreFedPart pick es (map state tools.old.items) (map state tools.new.items)) }
{
    let mut tally = Tally {
        events: 0,
        strays: 0,
    };
    let mut reader = TraceReader::new(alloc, bytes)?;
    while let Some(event) = reader.next()? {
        give_event(tools, pick, &mut tally, event)?;
    }
    Ok(tally)
}

// Gives an event to the analyses of these kinds, and counts the event.
fn give_event(
    tools: &mut Vec<Box<dyn Analysis>>,
    pick: Kinds,
    tally: &mut Tally,
    event: Event,
) -> Result<(), NoMemory>
    requires room { All (λ (t : ToolState). t.event_count ≤ 2 ^ 63) (map state tools.old.items) }
    requires events { tally.old.events ≤ 2 ^ 63 }
    requires strays { tally.old.strays ≤ 2 ^ 63 }
    ensures fed { OnOk result (map state tools.new.items ≡ fed pick (event ∷ []) (map state tools.old.items)) }
    ensures counted { OnOk result (tally.new ≡ tallied (event ∷ []) tally.old) }
    ensures part { OnErr result (AreFedPart pick (event ∷ []) (map state tools.old.items) (map state tools.new.items)) }
{
    give_all(tools, pick, from_ref(&event))?;
    tally.count(from_ref(&event));
    Ok(())
}
