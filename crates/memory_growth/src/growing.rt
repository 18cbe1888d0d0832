// The growths of the memory in a run, counted by function.

ghost use Rattle.std.specs.Prelude.{◌≡◌, ◌+◌, ◌^◌, ◌<◌, IfOk, IfErr, IfSome, OnOk, OnErr, Some};
ghost use Rattle.wasm_sem.specs.Execution.{summary_of, IsScriptInRange, Links, link};
ghost use Rattle.run_session.specs.Linking.{TellsRefusal};
ghost use Rattle.run_session.specs.Sessions.{told_outcome};
ghost use Rattle.static_info.specs.Belongs.{Belongs};
ghost use Rattle.static_info.specs.Form.{IsWellFormed};
ghost use Rattle.app_runs.specs.Reporting.{events_told};
ghost use Rattle.memory_growth.specs.Growths.{once_more, with_growth, growths, MayCountAll};

use app_runs::{Item, Listener, tell_run};
use hook_select::Event;
use run_session::{LinkFault, Outcome, Session};
use static_info::Info;
use std::alloc::Global;
use std::collections::BTreeMap;
use wasm_num::NoMemory;
use wasm_run::Quiet;
use wasm_sem::Script;
use wasm_valid::ValidModule;

/// How often a function executed `memory.grow`, and how often the answer was -1. (Standard, 4.4.4)
#[derive(Clone, Copy, Debug, PartialEq, Eq)]
pub struct Growth {
    /// How often the function executed `memory.grow`.
    pub times: u64,
    /// How often the answer was -1.
    pub refused: u64,
}

// The growths of a function after one more.
fn once_more(before: Option<Growth>, refused: bool) -> Growth
    requires times { IfSome before (λ g. g.times + 1 < 2 ^ 64) }
    requires refused { IfSome before (λ g. g.refused + 1 < 2 ^ 64) }
    ensures { result ≡ once_more before refused }
{
    let refused = u64::from(refused);
    match before {
        Some(growth) => Growth {
            times: growth.times + 1,
            refused: growth.refused + refused,
        },
        None => Growth { times: 1, refused },
    }
}

// The growths of each function so far, by the index of the function.
#[derive(Drop)]
struct Growths {
    functions: BTreeMap<u32, Growth>,
}

impl Growths {
    // Counts one more growth of a function. An `Err` comes if there is no memory for a new function. After an `Err`
    // nothing has changed.
    fn count(&mut self, func: u32, refused: bool) -> Result<(), NoMemory>
        requires { MayCountAll 1 self.old.functions.entries }
        ensures counted { OnOk result (self.new.functions.entries ≡ with_growth (Some (func, refused)) self.old.functions.entries) }
        ensures kept { OnErr result (self.new.functions.entries ≡ self.old.functions.entries) }
    {
        let growth = once_more(self.functions.get(&func).copied(), refused);
        self.functions.insert(func, growth)?;
        Ok(())
    }
}

impl Listener for Growths {
    ghost use Rattle.std.specs.Prelude.{List, ℕ, false, length};
    ghost use Rattle.wasm_sem.specs.Execution.{events_in};
    ghost use Rattle.memory_growth.specs.declared.growing.Growth.{Growth};
    ghost use Rattle.memory_growth.specs.Growths.{Counts, MayCountAll, CountsFirst};
    ghost use Rattle.app_runs.specs.Listeners.{by_no_events};
    ghost use Rattle.memory_growth.specs.Listens.{growths_listen};

    type Fault = NoMemory;

    ghost asks = { false };

    ghost Seen = { List (ℕ × Growth) };

    ghost seen = { λ g. g.functions.entries };

    ghost hears = { λ is. Counts (events_in is) };

    ghost ready = { λ is. MayCountAll (length (events_in is)) };

    ghost stands = { λ is. CountsFirst (events_in is) };

    fn hear(&mut self, item: Item<'_>) -> Result<(), NoMemory> {
        match item {
            Item::Event(Event::MemoryGrow { loc, previous, .. }) => {
                self.count(loc.func, *previous == u32::MAX)
            }
            Item::Event(_) | Item::Entry { .. } | Item::Host { .. } => Ok(()),
        }
    }

    ghost listens = { growths_listen };

    ghost unasked = { λ off. by_no_events (List (ℕ × Growth)) Counts growths_listen.none };
}

/// What a run came to, and which functions grew the memory in it.
#[derive(Drop)]
pub struct Grown {
    /// What the run came to.
    pub outcome: Outcome,
    /// The growths of each function that grew the memory, by the index of the function in the original.
    pub functions: BTreeMap<u32, Growth>,
}

/// Links a module with a script, and runs it to the end or for the script's steps. The answer is what the run came to,
/// and the growths of the functions of the original that the module's hook calls tell to have grown the memory. There
/// are none if the module has no hooks of the group `memory_grow`.
///
/// An `Err` tells why the module and the script do not link, or comes if there is no memory.
pub fn growth_of_run(
    alloc: Global,
    m: &ValidModule,
    info: &Info,
    script: &Script,
) -> Result<Grown, LinkFault>
    requires range { IsScriptInRange script.now }
    requires formed { IsWellFormed info.now }
    requires belongs { Belongs info.now m.now }
    ensures links { IfOk result (λ g. Links m.now script.now) }
    ensures ended { IfOk result (λ g. told_outcome g.outcome ≡ summary_of m.now script.now script.now.steps) }
    ensures functions { IfOk result (λ g. g.functions.entries ≡ growths (events_told info.now m.now script.now script.now.steps)) }
    ensures refused { IfErr result (λ fault. TellsRefusal fault (link m.now script.now)) }
{
    let session = Session::<Quiet>::link(alloc, m, script)?;
    let mut heard = Growths {
        functions: BTreeMap::new(alloc),
    };
    let outcome = tell_run(alloc, session, info, &mut heard)?;
    Ok(Grown {
        outcome,
        functions: heard.functions,
    })
}
