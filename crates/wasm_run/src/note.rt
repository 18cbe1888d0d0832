// Notes: what the last step of a run entered, and the host call that it made.

ghost use Rattle.std.specs.Prelude.{◌≡◌, ◌+◌, ◌∷◌, [], Bool, true, false, Some, IfOk, MatchOption, filter, refl};
ghost use Rattle.wasm_sem.specs.Execution.{host_call, values_of, is_within, writes_done};
ghost use Rattle.wasm_run.specs.Answering.{answer_given};
ghost use Rattle.wasm_run.specs.Noting.{host_items, noted_items, next_outside, IsNoteOf, KeepsNote};
ghost use Rattle.wasm_run.specs.Running.{Run, one_more};

use crate::host::values_of;
use module_ast::module::FuncType;
use module_ast::seq::Seq;
use run_store::memory::Memory;
use std::alloc::Global;
use wasm_num::{NoMemory, Values};
use wasm_sem::{HostAnswer, HostWrite};

/// An entry: the index of the start function or of the function of a script's call, and the arguments with which it is
/// entered.
#[derive(Drop)]
pub struct Entry {
    pub func: u32,
    pub args: Values,
}

/// A host call: the index of the import among the module's functions, the arguments, the results, and the writes that
/// were done, in order.
pub struct HostNote {
    pub import: u32,
    pub args: Values,
    pub results: Values,
    pub writes: Vec<HostWrite>,
}

// Dropped by hand: each early return past a value of this type then costs one proof step instead of one per field.
impl Drop for HostNote {
    fn drop(self) {
        let HostNote {
            import: _import,
            args: _args,
            results: _results,
            writes: _writes,
        } = self;
    }
}

/// What one step entered, and the host call that it made, if any.
pub struct Note {
    pub entered: Option<Entry>,
    pub host: Option<HostNote>,
}

// Dropped by hand: each early return past a value of this type then costs one proof step instead of one per field.
impl Drop for Note {
    fn drop(self) {
        let Note {
            entered: _entered,
            host: _host,
        } = self;
    }
}

/// What a machine keeps of the entries and the host calls of its steps: notes, or nothing.
pub trait Notes: Drop {
    /// Whether notes are kept.
    const KEEPS: bool;

    ghost KEEPS: { Bool };

    /// What is kept after the steps of this run.
    ghost are_of: { Self → Run → Type 0 };

    /// What is kept before the first step.
    fn none() -> Self
        ensures { (r : Run) → r.made ≡ 0 → are_of result r };

    /// Keeps the note of a step, with which `made` steps were made. The note is `None` if notes are not kept.
    fn put(&mut self, made: u64, note: Option<Note>)
        ensures { (r : Run) → are_of self.old r → made ≡ r.made + 1
            → MatchOption note (KEEPS ≡ false) (λ n. noted_items n ≡ next_outside r) → are_of self.new (one_more r) };

    /// The note of the last of `made` steps; `None` if notes are not kept.
    fn last(&self, made: u64) -> Option<&Note>
        ensures { (r : Run) → are_of self.now r → made ≡ r.made
            → MatchOption result (KEEPS ≡ false) (λ n. IsNoteOf n.now r) };

    /// A step that has nothing to note need not be put.
    ghost goes_on: { (n : Self) (r : Run) → (KEEPS ≡ true → next_outside r ≡ []) → are_of n r → are_of n (one_more r) };
}

/// The note of the last step that had something to note, and how many steps were made with it. All other steps have an
/// empty note, so that such a step costs nothing.
pub struct Noted {
    last: Note,
    nothing: Note,
    made: u64,
}

// Dropped by hand: each early return past a value of this type then costs one proof step instead of one per field.
impl Drop for Noted {
    fn drop(self) {
        let Noted {
            last: _last,
            nothing: _nothing,
            made: _made,
        } = self;
    }
}

impl Noted {
    /// The note of the last of `made` steps.
    pub(crate) fn of_step(&self, made: u64) -> &Note
        ensures { (r : Run) → KeepsNote self.now r → made ≡ r.made → IsNoteOf result.now r }
    {
        if self.made == made {
            &self.last
        } else {
            &self.nothing
        }
    }
}

impl Notes for Noted {
    ghost use Rattle.wasm_run.specs.NotesKept.{noted_goes_on};

    const KEEPS: bool = true;

    ghost KEEPS = { true };

    ghost are_of = { KeepsNote };

    fn none() -> Noted {
        Noted {
            last: Note {
                entered: None,
                host: None,
            },
            nothing: Note {
                entered: None,
                host: None,
            },
            made: 0,
        }
    }

    fn put(&mut self, made: u64, note: Option<Note>) {
        if let Some(note) = note {
            self.last = note;
            self.made = made;
        }
    }

    fn last(&self, made: u64) -> Option<&Note> {
        Some(self.of_step(made))
    }

    ghost goes_on = { λ n r quiet. noted_goes_on n r (quiet refl) };
}

/// No notes: nothing is kept, and nothing is copied.
#[derive(Drop)]
pub struct Quiet {}

impl Notes for Quiet {
    const KEEPS: bool = false;

    ghost KEEPS = { false };

    ghost are_of = { λ n r. Unit {0} };

    fn none() -> Quiet {
        Quiet {}
    }

    fn put(&mut self, _made: u64, _note: Option<Note>) {}

    fn last(&self, _made: u64) -> Option<&Note> {
        None
    }

    ghost goes_on = { λ n r quiet kept. tt };
}

// Whether a write ends within a memory of `size` bytes.
fn is_within(size: usize, write: &HostWrite) -> bool
    ensures { result ≡ is_within size write.now }
{
    let count = write.bytes.as_slice().len();
    count <= size && write.address as usize <= size - count
}

fn same_write(alloc: Global, write: &HostWrite) -> Result<HostWrite, NoMemory>
    ensures { IfOk result (λ w. w ≡ write.now) }
{
    Ok(HostWrite {
        address: write.address,
        bytes: Seq::from_vec(write.bytes.as_slice().to_vec(alloc)?),
    })
}

// Copies of the writes that end within a memory of `size` bytes.
fn writes_within(
    alloc: Global,
    size: usize,
    writes: &[HostWrite],
) -> Result<Vec<HostWrite>, NoMemory>
    ensures { IfOk result (λ done. done.items ≡ filter (is_within size) writes.now) }
{
    let mut done = Vec::new(alloc);
    for write in writes {
        if is_within(size, write) {
            done.push(same_write(alloc, write)?)?;
        }
    }
    Ok(done)
}

/// The entry of a function of this type, with the values that the numbers stand for.
pub(crate) fn noted_entry(
    alloc: Global,
    func: u32,
    ty: &FuncType,
    numbers: &[i128],
) -> Result<Entry, NoMemory>
    ensures { IfOk result (λ c. c ≡ record { func = func; args = values_of ty.now.params numbers.now }) }
{
    let args = values_of(alloc, ty.params.as_slice(), numbers)?;
    Ok(Entry { func, args })
}

/// The note of a host call that the script answers so, if it has an answer. The memory has not been written yet.
pub(crate) fn host_note(
    alloc: Global,
    memory: &Memory,
    import: u32,
    args: Values,
    ty: &FuncType,
    answer: Option<&HostAnswer>,
) -> Result<HostNote, NoMemory>
    ensures { IfOk result (λ n. host_items (Some n) ≡ host_call import args (values_of ty.now.results (answer_given answer.entry).results) (writes_done memory.now.bytes (answer_given answer.entry).writes) ∷ []) }
{
    let size = memory.bytes().len();
    let types = ty.results.as_slice();
    let (results, writes) = match answer {
        Some(answer) => (
            values_of(alloc, types, answer.results.as_slice())?,
            writes_within(alloc, size, answer.writes.as_slice())?,
        ),
        None => (values_of(alloc, types, &[])?, Vec::new(alloc)),
    };
    Ok(HostNote {
        import,
        args,
        results,
        writes,
    })
}
