// What a command prints, and the status it ends with.

ghost use Rattle.std.specs.Prelude.{◌≡◌, ℕ, List, IfOk, Option, string_bytes};
ghost use Rattle.analyses.specs.Tools.{ToolState};
ghost use Rattle.app_load.specs.Texts.{bad_words_text};
ghost use Rattle.outside_io.specs.Outside.{ShelfState};
ghost use Rattle.app_load.specs.Printing.{Said};
ghost use Rattle.app_load.specs.Ends.{Ends};
ghost use Rattle.app_load.specs.Outcomes.{IsRefusal, SaidRefusal, Yields};
ghost use Rattle.app_load.specs.Plans.{Plan};
ghost use Rattle.app_load.specs.Statuses.{status_number};

use crate::status::Status;
use outside_io::{Sink, SinkFault};
use std::alloc::{AllocError, Global};

/// The answer of a command that is not refused.
#[derive(Drop)]
pub struct Printed {
    /// The status of the command if the whole text is printed.
    pub status: Status,
    /// The bytes to print.
    pub text: Vec<u8>,
}

/// Why a command is refused.
#[derive(Drop)]
pub enum Refusal {
    /// A status, and the line to print, with its newline.
    Line { status: Status, line: String },
    /// Memory ran out: status 14.
    NoMemory,
}

impl From<AllocError> for Refusal {
    ghost use Rattle.app_load.specs.declared.printing.Refusal.{Refusal};

    ghost from_gives = { λ _ refusal. refusal ≡ Refusal.NoMemory };

    fn from(_error: AllocError) -> Refusal {
        Refusal::NoMemory
    }
}

// The line that says that memory ended.
const NO_MEMORY: &str = "error 14: out of memory\n";

/// The refusal, with status 2, of words that are no command. The refusal is `NoMemory` if there is no memory for the
/// line.
pub fn bad_words(alloc: Global) -> Refusal
    ensures { IsRefusal 2 bad_words_text result }
{
    refused(
        Status::BadWords,
        String::from_str(alloc, "error 2: bad words\n"),
    )
}

/// The refusal with this status and this line. The refusal is `NoMemory` if there was no memory for the line.
pub fn refused(status: Status, line: Result<String, AllocError>) -> Refusal
    ensures { (text : List ℕ) → IfOk line (λ made. string_bytes made ≡ text) → IsRefusal (status_number status) text result }
{
    match line {
        Ok(line) => Refusal::Line { status, line },
        Err(_) => Refusal::NoMemory,
    }
}

// Prints a text with one call of the sink. The answer is `whole` if the whole text was printed, `failed` if the sink
// failed, and `NoMemory` if memory ran out.
fn say<K: Sink>(out: &mut K, text: &[u8], whole: Status, failed: Status) -> Status
    ensures { Said text.now (status_number whole) (status_number failed) (K.seen out.old) (K.seen out.new) (status_number result) }
{
    match out.put(text) {
        Ok(()) => whole,
        Err(SinkFault::Failed) => failed,
        Err(SinkFault::NoMemory) => Status::NoMemory,
    }
}

// Prints the line of a refusal and answers the status of the refusal. A failure of the sink does not change the status.
fn refuse<K: Sink>(out: &mut K, refusal: &Refusal) -> Status
    ensures { SaidRefusal refusal.now (K.seen out.old) (K.seen out.new) (status_number result) }
{
    match refusal {
        Refusal::Line { status, line } => say(out, line.as_bytes(), *status, *status),
        Refusal::NoMemory => say(
            out,
            NO_MEMORY.as_bytes(),
            Status::NoMemory,
            Status::NoMemory,
        ),
    }
}

/// Prints the text of an answer, or the line of a refusal, and gives the number of the status, 0 to 23. If the sink
/// fails, the status of an answer is `Unprinted`, 15; that of a refusal stays. If memory runs out, the status is
/// `NoMemory`, 14.
pub fn tell<K: Sink>(out: &mut K, ending: Result<Printed, Refusal>) -> u8
    ensures { (plan : Option Plan) (old new : ShelfState) (was is : List ToolState) → Yields plan old new was is ending
        → Ends plan old new was is (K.seen out.old) (K.seen out.new) result }
{
    match ending {
        Ok(told) => say(out, told.text.as_slice(), told.status, Status::Unprinted).number(),
        Err(refusal) => refuse(out, &refusal).number(),
    }
}
