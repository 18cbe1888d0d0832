// Laws of remappings.

ghost use Rattle.std.specs.Prelude.{◌≡◌, ℕ, Some};
ghost use Rattle.index_remap.specs.declared.Remap.{Remap as Shown};
ghost use Rattle.index_remap.specs.Remap.{map_index, unmap_index};

use crate::Remap;

/// The index that a function of the original has in the output is taken back to that function.
pub fn indices_come_back()
    ensures { (remap : Shown) (f : ℕ) → unmap_index remap (map_index remap f) ≡ Some f }
{}

/// A remapping may be sent to other threads, and several threads may read one at once.
pub fn remaps_cross_threads(remap: &Remap) {
    is_send_and_sync(remap);
}

fn is_send_and_sync<T: Send + Sync>(_value: &T) {}
