// The command line program `wasabi`. It works on the files of the machine and its standard output, by the words with
// which it was started.
#![tactic(auto)]

ghost use Rattle.std.specs.Prelude.{◌≡◌, ◌≢◌};
ghost use Rattle.std.specs.Process.{exit_status};
ghost use Rattle.command_line.specs.Lines.{texts};
ghost use Rattle.wasabi_app.specs.Ended.{IsEnded};

use outside_io::{HostShelf, HostSink, Shelf, Sink};
use std::alloc::Global;
use std::env;
use std::io::ErrorKind;
use std::process::ExitCode;
use std::thread::Threads;
use wasabi_app::run_command;

fn main(rt: HostRuntime) -> ExitCode {
    let words = match env::args(&rt) {
        Ok(words) => words,
        Err(error) => return ExitCode::from(status_of(error.kind())),
    };
    let Ok(words) = words.collect::<Vec<String>>(rt.alloc()) else {
        return ExitCode::from(14);
    };
    let mut shelf = HostShelf::new(&rt);
    let mut sink = HostSink::new(&rt);
    command(&rt, rt.alloc(), &words, &mut shelf, &mut sink)
}

// Runs the command of these words on a shelf and an output. The exit code is the status of the command. It has no other
// way to a file or to an output.
fn command<R: Threads + Sync, S: Shelf, K: Sink>(
    rt: &R,
    alloc: Global,
    words: &[String],
    shelf: &mut S,
    out: &mut K,
) -> ExitCode
    ensures { IsEnded (texts words.now) (S.seen shelf.old) (S.seen shelf.new) (K.seen out.old) (K.seen out.new) (exit_status result) }
{
    let status = run_command(rt, alloc, words, shelf, out);
    ExitCode::from(status)
}

// The status if the words cannot be read: 14 for want of memory, otherwise 2.
fn status_of(kind: ErrorKind) -> u8
    ensures memory { kind ≡ ErrorKind.OutOfMemory → result ≡ 14 }
    ensures other { kind ≢ ErrorKind.OutOfMemory → result ≡ 2 }
{
    match kind {
        ErrorKind::OutOfMemory => 14,
        _ => 2,
    }
}
