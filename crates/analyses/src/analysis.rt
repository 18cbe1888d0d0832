// The trait that all analyses have.

ghost use Rattle.std.specs.Prelude.{◌≡◌, ◌+◌, ◌^◌, ◌<◌, IfOk, OnOk, OnErr};
ghost use Rattle.analyses.specs.Tools.{ToolState, state_after};

use crate::{Kind, Row};
use hook_select::Event;
use wasm_num::NoMemory;

/// What counts the events of one kind. An analysis has taken a number of events, and its book has a row for each thing of this
/// kind that the events report.
pub trait Analysis: Drop {
    /// What the analysis counts, how many events it has taken, and the rows of these events, in order.
    ghost state: { Self → ToolState };

    /// What the analysis counts.
    fn kind(&self) -> Kind
        ensures { result ≡ (state self.now).counts };

    /// How many events the analysis has taken.
    fn taken(&self) -> u64
        ensures { result ≡ (state self.now).event_count };

    /// Takes one more event.
    ///
    /// `NoMemory` if memory runs out; the analysis is then as it was.
    fn take(&mut self, event: &Event) -> Result<(), NoMemory>
        requires { (state self.old).event_count + 1 < 2 ^ 64 }
        ensures taken { OnOk result (state self.new ≡ state_after (state self.old) event.now) }
        ensures kept { OnErr result (state self.new ≡ state self.old) };

    /// The book, in the order of functions, positions, tags and other numbers.
    ///
    /// `NoMemory` if memory runs out.
    fn rows(&self) -> Result<Vec<Row>, NoMemory>
        ensures { IfOk result (λ rows. rows.items ≡ (state self.now).book) };
}
