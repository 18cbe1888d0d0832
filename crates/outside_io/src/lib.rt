// What a program reaches outside itself: files by their names and printed text, each of the machine or in memory.
#![tactic(auto)]

mod calls;
mod disk;
mod disk_shelf;
mod faults;
mod host_disk;
mod host_shelf;
mod host_sink;
mod memory_disk;
mod memory_shelf;
mod memory_sink;
mod outside;
mod streams;
mod whole;

pub use calls::Fail;
pub use disk::{Disk, Found};
pub use disk_shelf::DiskShelf;
pub use host_disk::HostDisk;
pub use host_shelf::HostShelf;
pub use host_sink::HostSink;
pub use memory_disk::MemoryDisk;
pub use memory_shelf::MemoryShelf;
pub use memory_sink::MemorySink;
pub use outside::{NoMemory, ReadFault, Shelf, Sink, SinkFault, WriteFault};
pub use whole::write_whole;
