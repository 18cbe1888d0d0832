// How many values blocks take and leave.

ghost use Rattle.std.specs.Prelude.{◌≡◌, length, Some};
ghost use Rattle.module_ast.specs.Validation.{block_type};
ghost use Rattle.wasm_sem.specs.Types.{FuncType as func_type};

use module_ast::code::BlockType;
use module_ast::module::Module;

/// How many values a block takes, and how many it leaves. (Standard, 3.2.2)
#[derive(Clone, Copy)]
pub struct BlockCounts {
    pub starts: usize,
    pub results: usize,
}

/// The counts of a block of this type in `module`. Takes constant time. (Standard, 3.2.2)
pub fn block_counts(module: &Module, ty: BlockType) -> BlockCounts
    requires { (t : func_type) × (block_type «module».now.types ty ≡ Some t) }
    ensures { (t : func_type) → block_type «module».now.types ty ≡ Some t → result ≡ record { starts = length t.params; results = length t.results } }
{
    match ty {
        BlockType::Empty => BlockCounts {
            starts: 0,
            results: 0,
        },
        BlockType::Value(_) => BlockCounts {
            starts: 0,
            results: 1,
        },
        BlockType::Indexed(index) => {
            let ty = &module.types.as_slice()[index as usize];
            BlockCounts {
                starts: ty.params.as_slice().len(),
                results: ty.results.as_slice().len(),
            }
        }
    }
}
