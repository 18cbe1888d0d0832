// The labels of a branch table.

ghost use Rattle.std.specs.Prelude.{◌≡◌, IfOk};

use std::alloc::{AllocError, Global};
use std::marker::Model;
use std::mem::size_of;

/// Labels in order, which contracts see as a list. They are as large as a pointer, so that an instruction stays small.
pub struct Labels {
    items: Box<Vec<u32>>,
}

// Dropped by hand: each early return past a value of this type then costs one proof step instead of one per field.
impl Drop for Labels {
    fn drop(self) {
        let Labels { items: _items } = self;
    }
}

const _: () = prove!(size_of::<Labels>() == 8);

impl Model for Labels {
    ghost use Rattle.std.specs.Prelude.{List, ℕ};

    ghost Value = { List ℕ };

    ghost view = { λ a. a.items.value.items };
}

impl Labels {
    /// The labels of a `Vec`, in order. An `AllocError`, which drops them, if memory runs out.
    pub fn from_vec(alloc: Global, items: Vec<u32>) -> Result<Labels, AllocError>
        ensures { IfOk result (λ labels. labels ≡ items.items) }
    {
        let items = Box::new(alloc, items)?;
        Ok(Labels { items })
    }

    /// Takes the labels apart: a `Vec` of them, in order.
    pub fn into_vec(self) -> Vec<u32>
        ensures { result.items ≡ self }
    {
        let Labels { items } = self;
        Box::into_inner(items)
    }

    /// The labels, in order.
    pub fn as_slice(&self) -> &[u32]
        ensures { result.now ≡ self.now }
    {
        &self.items
    }
}
