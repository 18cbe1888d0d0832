// Function indices of the output, in which the hooks follow the imports, and copies of code and modules with such
// indices.
#![tactic(auto)]

mod code;
mod copies;
pub mod laws;
mod modules;

ghost use Rattle.std.specs.Prelude.{◌≡◌, ◌+◌, ◌^◌, ◌<◌};

pub use crate::copies::{DeepCopy, copy_list, copy_parts};

/// How function indices change: an index below `imports` stays, any other rises by `added`, the number of hooks.
#[derive(Clone, Copy, PartialEq, Eq)]
pub struct Remap {
    pub imports: u32,
    pub added: u32,
}

impl Remap {
    ghost use Rattle.index_remap.specs.Remap.{map_index, unmap_index};

    /// The index in the output of a function of the original.
    pub fn map(&self, f: u32) -> u32
        requires { f + self.now.added < 2 ^ 32 }
        ensures { result ≡ map_index self.now f }
    {
        if f < self.imports { f } else { f + self.added }
    }

    /// The index in the original of a function of the output; `None` exactly if the function is a hook.
    pub fn unmap(&self, f: u32) -> Option<u32>
        ensures { result ≡ unmap_index self.now f }
    {
        if f < self.imports {
            return Some(f);
        }
        if f - self.imports < self.added {
            return None;
        }
        Some(f - self.added)
    }
}
