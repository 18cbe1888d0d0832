// A sink that fails in the middle of a report, and the line of events.

ghost use Rattle.std.specs.Prelude.{◌≡◌};
ghost use Rattle.analyses.specs.Book.{HaveTags};

use analyses::{Kind, Row};
use outside_io::{Fail, MemorySink};
use report::{ReportFault, events_line, write_report};
use std::alloc::Global;
use std::test;

// A row without addresses.
fn row(func: u32, instr: i32, tag: u8, other: u64, count: u64) -> Row
    ensures { result.tag ≡ tag }
{
    Row {
        func,
        instr,
        tag,
        other,
        count,
        least: 0,
        greatest: 0,
    }
}

// Whether a report breaks off where the sink fails, and the sink has this part of it.
fn breaks_off(alloc: Global, rows: &[Row], sink: &mut MemorySink, part: &[u8]) -> bool
    requires { HaveTags Kind.Calls rows.now }
{
    write_report(alloc, Kind::Calls, rows, sink) == Err(ReportFault::SinkFailed)
        && sink.bytes() == part
}

#[test]
fn a_part_stands_where_the_sink_fails(rt: HostRuntime) -> Result<(), test::Fail> {
    let alloc = rt.alloc();
    let calls = [
        row(0, -1, 0, 0, 1),
        row(7, -1, 0, 0, 4),
        row(8, -1, 0, 0, 1),
    ];
    let mut sink = MemorySink::new(alloc, vec![in alloc; Fail { call: 2, kept: 6 }]?);
    let part = b"report calls 3\ncall 0 none 1\ncall 7".as_slice();
    assert!(rt; breaks_off(alloc, &calls, &mut sink, part));
    Ok(())
}

#[test]
fn events_and_strays(rt: HostRuntime) -> Result<(), test::Fail> {
    let line = events_line(rt.alloc(), 18446744073709551615, 2)?;
    assert_eq!(rt; line.as_str(), "events 18446744073709551615 stray 2\n");
    Ok(())
}
