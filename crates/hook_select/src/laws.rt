// Laws of the events and of the types.

ghost use Rattle.std.specs.Prelude.{◌≡◌};
ghost use Rattle.hook_select.specs.Events.{event_row, event_of, number_of, IsMade};

use crate::{Event, Hooks};

/// An event is what its fields make, and fields of its number are those of the event that they make.
pub fn events_are_rows(event: &Event)
    ensures told { event_of (event_row event.now) ≡ event.now }
    ensures made { IsMade (number_of event.now) }
{}

/// A set of groups may go to other threads, and several threads may read it at the same time.
pub fn hooks_cross_threads(hooks: &Hooks) {
    is_send_and_sync(hooks);
}

fn is_send_and_sync<T: Send + Sync>(_value: &T) {}
