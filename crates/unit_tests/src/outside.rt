// One run of each shelf and sink.

use outside_io::{
    Fail, HostShelf, HostSink, MemoryShelf, MemorySink, ReadFault, Shelf, Sink, SinkFault,
    WriteFault,
};
use std::alloc::{AllocError, Global};
use std::os::unix::fs::{PermissionsExt, symlink};
use std::{fs, io, test};

// Whether a shelf has these bytes under a name, where at most so many are asked for.
fn has<S: Shelf>(alloc: Global, shelf: &mut S, name: &str, cap: u64, bytes: &[u8]) -> bool {
    match shelf.read(alloc, name, cap) {
        Ok(found) => found.as_slice() == bytes,
        Err(_) => false,
    }
}

// Whether a shelf refuses a read so.
fn refuses<S: Shelf>(alloc: Global, shelf: &mut S, name: &str, cap: u64, fault: ReadFault) -> bool {
    match shelf.read(alloc, name, cap) {
        Ok(_) => false,
        Err(found) => found == fault,
    }
}

// Whether a shelf takes twelve bytes under a name and gives them back, and says how many they are where fewer are asked for.
fn keeps<S: Shelf>(alloc: Global, shelf: &mut S, name: &str) -> bool {
    shelf.write(name, b"twelve bytes").is_ok()
        && has(alloc, shelf, name, 12, b"twelve bytes")
        && refuses(alloc, shelf, name, 11, ReadFault::TooLong { length: 12 })
}

#[test]
fn host_shelf_has_a_file(rt: HostRuntime) {
    let name = "outside_io_test.bin";
    let mut shelf = HostShelf::new(&rt);
    assert!(rt; keeps(rt.alloc(), &mut shelf, name));
    assert!(rt; fs::remove_file(&rt, name).is_ok());
    assert!(rt; refuses(rt.alloc(), &mut shelf, name, 12, ReadFault::Missing));
    assert!(rt; shelf.write("no such folder/name", b"") == Err(WriteFault::Failed));
}

// Whether nothing is left beside a file that was written in the folder of the test.
fn left_nothing(rt: &HostRuntime) -> bool {
    fs::symlink_metadata(rt, ".wasabi-0.new").is_err()
}

// The permissions of a name, and whether it is a link.
fn mode_of(rt: &HostRuntime, name: &str) -> io::Result<(u32, bool)> {
    let mode = fs::metadata(rt, name)?.permissions().mode() & 0o777;
    Ok((mode, fs::symlink_metadata(rt, name)?.is_symlink()))
}

#[test]
fn host_shelf_replaces_the_file_behind_a_link(rt: HostRuntime) -> Result<(), test::Fail> {
    let mut shelf = HostShelf::new(&rt);
    assert!(rt; shelf.write("whole.bin", b"before").is_ok());
    fs::set_permissions(&rt, "whole.bin", fs::Permissions::from_mode(0o640))?;
    symlink(&rt, "whole.bin", "link.bin")?;
    assert!(rt; keeps(rt.alloc(), &mut shelf, "link.bin"));
    assert_eq!(rt; mode_of(&rt, "link.bin")?, (0o640, true));
    fs::remove_file(&rt, "whole.bin")?;
    assert!(rt; keeps(rt.alloc(), &mut shelf, "link.bin"));
    assert!(rt; has(rt.alloc(), &mut shelf, "whole.bin", 12, b"twelve bytes"));
    fs::remove_file(&rt, "link.bin")?;
    fs::remove_file(&rt, "whole.bin")?;
    assert!(rt; left_nothing(&rt));
    Ok(())
}

#[test]
fn host_shelf_leaves_what_it_cannot_write(rt: HostRuntime) -> Result<(), test::Fail> {
    let mut shelf = HostShelf::new(&rt);
    assert!(rt; shelf.write("/dev/null", b"gone").is_ok());
    assert!(rt; shelf.write("/dev/full", b"too much") == Err(WriteFault::Failed));
    assert!(rt; !fs::metadata(&rt, "/dev/full")?.is_file());
    symlink(&rt, "loop.bin", "loop.bin")?;
    assert!(rt; shelf.write("loop.bin", b"nowhere") == Err(WriteFault::Failed));
    fs::remove_file(&rt, "loop.bin")?;
    assert!(rt; shelf.write(".", b"a folder") == Err(WriteFault::Failed));
    assert!(rt; shelf.write("no_folder/", b"a folder") == Err(WriteFault::Failed));
    assert!(rt; left_nothing(&rt));
    Ok(())
}

#[test]
fn host_sink_prints(rt: HostRuntime) {
    let mut sink = HostSink::new(&rt);
    assert_eq!(rt; sink.put(b"printed\n"), Ok(()));
}

// Whether a write of `b` ends so, and leaves these bytes there.
fn leaves(shelf: &mut MemoryShelf, answer: Result<(), WriteFault>, bytes: &[u8]) -> bool {
    shelf.write("b", b"written") == answer && shelf.bytes_of("b") == Some(bytes)
}

// Whether a shelf whose third and fourth calls fail, and the third keeps three bytes, does so and is whole again then.
fn fails_as_told(alloc: Global, shelf: &mut MemoryShelf) -> Result<bool, AllocError> {
    shelf.add("a", b"added")?;
    Ok(
        has(alloc, shelf, "a", 5, b"added")
            && refuses(alloc, shelf, "a", 4, ReadFault::TooLong { length: 5 })
            && leaves(shelf, Err(WriteFault::Failed), b"wri")
            && refuses(alloc, shelf, "a", 5, ReadFault::Failed)
            && leaves(shelf, Ok(()), b"written")
            && refuses(alloc, shelf, "c", 5, ReadFault::Missing),
    )
}

#[test]
fn memory_shelf_fails_as_told(rt: HostRuntime) -> Result<(), test::Fail> {
    let alloc = rt.alloc();
    let fails = vec![in alloc; Fail { call: 2, kept: 3 }, Fail { call: 3, kept: 0 }]?;
    let mut shelf = MemoryShelf::new(alloc, fails);
    assert!(rt; fails_as_told(alloc, &mut shelf)?);
    Ok(())
}

// Whether a sink whose second call fails and keeps all does so.
fn prints_as_told(sink: &mut MemorySink) -> bool {
    sink.put(b"one ") == Ok(())
        && sink.put(b"two ") == Err(SinkFault::Failed)
        && sink.put(b"three") == Ok(())
        && sink.bytes() == b"one two three".as_slice()
}

#[test]
fn memory_sink_fails_as_told(rt: HostRuntime) -> Result<(), test::Fail> {
    let alloc = rt.alloc();
    let fails = vec![in alloc; Fail { call: 1, kept: 9 }]?;
    let mut sink = MemorySink::new(alloc, fails);
    assert!(rt; prints_as_told(&mut sink));
    Ok(())
}
