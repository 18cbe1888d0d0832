// Files that are written on a disk in memory. Each call of the disk fails in turn, and the disk stops at each in turn.

use outside_io::{DiskShelf, MemoryDisk, ReadFault, Shelf};
use std::alloc::Global;
use std::test::Fail;

const OLD: [u8; 3] = [1, 2, 3];

const NEW: [u8; 2] = [4, 5];

// A write makes these calls: find, create, write, keep_permissions, sync, take_place, settle.
const CALLS: u64 = 7;

const TAKE_PLACE: u64 = 5;

const SETTLE: u64 = 6;

// A shelf over a disk on which two files were written: `a` twice, the second time with NEW, where these calls of the second
// write fail, and all from `stops` on. Also whether the second write answered Ok.
fn written_twice(alloc: Global, fails: Vec<u64>, stops: u64) -> (DiskShelf<MemoryDisk>, bool) {
    let mut shelf = DiskShelf::new(MemoryDisk::new(alloc, fails, stops));
    let first = shelf.write("a", &OLD);
    let second = shelf.write("a", &NEW);
    (shelf, first.is_ok() && second.is_ok())
}

// The number of a call of the second write.
fn of_second(call: u64) -> u64 {
    CALLS.saturating_add(call)
}

// What is under `a`, once a call of the second write failed or the disk stopped at it.
fn expected(call: u64) -> &'static [u8] {
    if call <= TAKE_PLACE { &OLD } else { &NEW }
}

// Whether these bytes are under a place, and whether a new file is left beside `a`.
fn has(shelf: &DiskShelf<MemoryDisk>, bytes: &[u8], left: bool) -> bool {
    let disk = shelf.disk();
    disk.bytes_of("a").unwrap_or(&[]) == bytes && disk.bytes_of("a~").is_some() == left
}

#[test]
fn each_call_fails_in_turn(rt: HostRuntime) -> Result<(), Fail> {
    for call in 0..CALLS {
        let fails = vec![in rt.alloc(); of_second(call)]?;
        let (shelf, ok) = written_twice(rt.alloc(), fails, u64::MAX);
        // Only the sync of the folder may be refused.
        assert_eq!(rt; ok, call == SETTLE);
        assert!(rt; has(&shelf, expected(call), false));
    }
    Ok(())
}

#[test]
fn a_new_file_stays_if_its_removal_fails_too(rt: HostRuntime) -> Result<(), Fail> {
    for call in 2..SETTLE {
        let fails = vec![in rt.alloc(); of_second(call), of_second(call + 1)]?;
        let (shelf, ok) = written_twice(rt.alloc(), fails, u64::MAX);
        assert_eq!(rt; ok, false);
        assert!(rt; has(&shelf, &OLD, true));
    }
    Ok(())
}

#[test]
fn the_disk_stops_at_each_call_in_turn(rt: HostRuntime) -> Result<(), Fail> {
    for call in 0..CALLS + 1 {
        let (shelf, ok) = written_twice(rt.alloc(), Vec::new(rt.alloc()), of_second(call));
        assert_eq!(rt; ok, call >= SETTLE);
        // A new file is left if it was made and did not take its place.
        assert!(rt; has(&shelf, expected(call), call >= 2 && call <= TAKE_PLACE));
    }
    Ok(())
}

#[test]
fn a_device_takes_the_bytes(rt: HostRuntime) -> Result<(), Fail> {
    let alloc = rt.alloc();
    let mut disk = MemoryDisk::new(alloc, vec![in alloc; 3]?, u64::MAX);
    disk.name_device(String::from_str(alloc, "d")?);
    let mut shelf = DiskShelf::new(disk);
    assert!(rt; shelf.write("d", &OLD).is_ok());
    assert!(rt; shelf.write("d", &NEW).is_err());
    assert!(rt; shelf.write("d", &NEW).is_ok());
    assert_eq!(rt; shelf.disk().poured(), [1, 2, 3, 4, 5].as_slice());
    assert!(rt; shelf.disk().bytes_of("d").is_none());
    Ok(())
}

// Whether a read of a name ends so.
fn refuses(
    alloc: Global,
    shelf: &mut DiskShelf<MemoryDisk>,
    name: &str,
    cap: u64,
    fault: ReadFault,
) -> bool {
    match shelf.read(alloc, name, cap) {
        Ok(_) => false,
        Err(found) => found == fault,
    }
}

#[test]
fn a_file_is_read(rt: HostRuntime) -> Result<(), Fail> {
    let alloc = rt.alloc();
    let (mut shelf, ok) = written_twice(alloc, vec![in alloc; of_second(CALLS + 3)]?, u64::MAX);
    assert!(rt; ok);
    let bytes = shelf.read(alloc, "a", 2);
    assert!(rt; bytes.is_ok_and(|bytes| bytes.as_slice() == NEW.as_slice()));
    assert!(rt; refuses(alloc, &mut shelf, "a", 1, ReadFault::TooLong { length: 2 }));
    assert!(rt; refuses(alloc, &mut shelf, "b", 1, ReadFault::Missing));
    assert!(rt; refuses(alloc, &mut shelf, "a", 2, ReadFault::Failed));
    Ok(())
}
