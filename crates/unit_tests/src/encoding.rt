// A module whose bytes are known.

ghost use Rattle.std.specs.Prelude.{◌≤◌};
ghost use Rattle.module_ast.specs.Validation.Limits.{longest_file};

use crate::files::file_of;
use module_ast::module::Limits;
use std::alloc::Global;
use std::test::Fail;
use wasm_decode::decode;
use wasm_encode::{EncodeFault, encode};

// What the module of a short file is written as, in at most so many bytes; `None` where there is none.
#[tactic(auto, using(module_ast::proofs::LeastModules::module_least))]
fn written(alloc: Global, file: &[u8], max: u64) -> Option<Result<Vec<u8>, EncodeFault>>
    requires { max ≤ longest_file }
{
    if file.len() > 128 {
        return None;
    }
    let module = decode(alloc, file, &Limits::wide()).ok()?;
    Some(encode(alloc, &module, max))
}

// One function, of no parameters and no results, that is exported as "f" and does nothing: read with each size in five
// bytes, and written with each in one.
#[test]
fn one_function(rt: HostRuntime) -> Result<(), Fail> {
    let alloc = rt.alloc();
    let padded = file_of(
        alloc,
        "01848080800001600000 0382808080000100 0785808080000101660000 0A8580808000010300010B",
    )?;
    let want = file_of(alloc, "010401600000 03020100 07050101660000 0A05010300010B")?;
    let bytes = written(alloc, &padded, 32).ok_or("no module")??;
    assert_eq!(rt; bytes.as_slice(), want.as_slice());
    let fault = written(alloc, &padded, 31);
    assert!(rt; matches!(fault, Some(Err(EncodeFault::TooLarge { length: 32 }))));
    Ok(())
}
