// Files of modules from hex digits.

ghost use Rattle.std.specs.Prelude.{IfSome};
ghost use Rattle.module_ast.specs.Binary.{Gram};
ghost use Rattle.module_ast.specs.Validation.{IsWhole};

use leb_binary::put_u32;
use module_ast::module::{LONGEST_FILE, Limits, Module};
use std::alloc::{AllocError, Global};
use std::test::Fail;
use wasm_decode::decode;

// The bytes that hex digits spell, whatever stands between them.
pub(crate) fn bytes_of(alloc: Global, text: &str) -> Result<Vec<u8>, AllocError> {
    let mut bytes = Vec::new(alloc);
    let mut high = None;
    for digit in text.bytes() {
        let half = match digit {
            b'0'..=b'9' => digit - b'0',
            b'A'..=b'F' => digit - b'A' + 10,
            _ => continue,
        };
        high = match high {
            None => Some(half << 4),
            Some(high) => {
                bytes.push(high | half)?;
                None
            }
        };
    }
    Ok(bytes)
}

// A file of the header and these bytes in hex.
pub(crate) fn file_of(alloc: Global, text: &str) -> Result<Vec<u8>, AllocError> {
    let mut file = bytes_of(alloc, "0061736D 01000000")?;
    let bytes = bytes_of(alloc, text)?;
    file.extend_from_slice(&bytes)?;
    Ok(file)
}

// Adds these bytes behind their size.
pub(crate) fn put_sized(out: &mut Vec<u8>, bytes: &[u8]) -> Result<(), Fail> {
    let Ok(size) = u32::try_from(bytes.len()) else {
        return Err("too many bytes".into());
    };
    put_u32(out, size)?;
    out.extend_from_slice(bytes)?;
    Ok(())
}

// Adds the section of this number with these bytes in hex; without bytes there is none.
pub(crate) fn put_section(
    file: &mut Vec<u8>,
    alloc: Global,
    id: u8,
    text: &str,
) -> Result<(), Fail> {
    let bytes = bytes_of(alloc, text)?;
    if bytes.is_empty() {
        return Ok(());
    }
    file.push(id)?;
    put_sized(file, &bytes)
}

// The module of a file.
pub(crate) fn module_of(alloc: Global, file: &[u8]) -> Option<Module>
    ensures gram { IfSome result (λ m. Gram file.now m) }
    ensures whole { IfSome result (λ m. IsWhole m) }
{
    if file.len() as u64 > LONGEST_FILE {
        return None;
    }
    decode(alloc, file, &Limits::wide()).ok()
}
