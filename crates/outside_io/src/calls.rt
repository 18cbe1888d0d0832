// Which calls on a shelf or a sink in memory are to fail, and the number of the next call.

ghost use Rattle.std.specs.Prelude.{◌≡◌, ◌+◌, ◌^◌, ◌<◌, if◌then◌else◌, is_some, take};
ghost use Rattle.outside_io.specs.Failing.{kept_at};

use std::marker::Model;

/// A call that is to fail, and how many bytes it still keeps.
#[derive(Clone, Copy, Debug, PartialEq, Eq)]
pub struct Fail {
    /// The number of the call, counted from 0.
    pub call: u64,
    /// How many bytes a write or a print that fails still keeps: the first ones, or all bytes if there are fewer. A read that
    /// fails keeps nothing.
    pub kept: u64,
}

/// The calls that are to fail, and the number of the next call. There is no next number after call 2^64 - 1: later calls have
/// no number, and none of them is made to fail.
#[derive(Drop)]
pub struct Calls {
    fails: Vec<Fail>,
    next: Option<u64>,
}

impl Model for Calls {
    ghost use Rattle.outside_io.specs.Calls.{CallCount};

    ghost Value = { CallCount };

    ghost view = { λ calls. record { fails = calls.fails.items; next = calls.next } };
}

impl Calls {
    ghost use Rattle.outside_io.specs.Calls.{failing_next, CountsCall, listed_calls_made};

    /// A count in which no call was made yet: the next call has the number 0.
    pub(crate) fn new(fails: Vec<Fail>) -> Calls
        ensures fails { result.fails ≡ fails.items }
        ensures next { result.next ≡ Some 0 }
        ensures made { listed_calls_made result ≡ 0 }
    {
        Calls {
            fails,
            next: Some(0),
        }
    }

    /// Counts a call. Answers how many bytes the call keeps if it is to fail, and `None` if it is not.
    pub(crate) fn count(&mut self) -> Option<u64>
        ensures kept { result ≡ failing_next self.old }
        ensures counted { CountsCall self.old self.new }
        ensures made { listed_calls_made self.new ≡ listed_calls_made self.old + (if is_some result then 1 else 0) }
        ensures room { listed_calls_made self.new < 2 ^ 64 }
    {
        let number = self.next?;
        self.next = number.checked_add(1);
        kept_of(&self.fails, number)
    }
}

// How many bytes the call with this number keeps, if it is listed. If it is listed more than once, the first entry counts.
fn kept_of(fails: &[Fail], number: u64) -> Option<u64>
    ensures { result ≡ kept_at fails.now number }
{
    for fail in fails {
        if fail.call == number {
            return Some(fail.kept);
        }
    }
    None
}

/// The first `kept` bytes, or all bytes if there are fewer.
pub(crate) fn front(bytes: &[u8], kept: u64) -> &[u8]
    ensures { result.now ≡ take kept bytes.now }
{
    if kept < bytes.len() as u64 {
        &bytes[..kept as usize]
    } else {
        bytes
    }
}
