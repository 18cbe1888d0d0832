// What holds of trace files.

ghost use Rattle.trace_file.specs.Laws.{EventsHaveTraces, TracesTellEvents, WritersGoOn, WritersWriteTraces, FirstEventsFit};

/// Events have a trace file if there are fewer than 2^32 of them and their numbers are of their sizes, and no two lists of
/// events have the same trace file.
pub fn traces_tell_events()
    ensures has { EventsHaveTraces }
    ensures one { TracesTellEvents }
{}

/// A writer that begins without events, and into which events are put one by one, writes their trace file.
pub fn writers_write_traces()
    ensures more { WritersGoOn }
    ensures file { WritersWriteTraces }
{}

/// A trace file grows with its events: if a list of events is too long for it, no list that begins with these events fits.
pub fn traces_grow()
    ensures { FirstEventsFit }
{}
