// The entries of the code section (5.5.13): each body behind the number of its bytes.

ghost use Rattle.std.specs.Prelude.{◌≡◌, ◌++◌, ◌<◌, ◌^◌, OnOk, All, length};
ghost use Rattle.module_ast.specs.declared.module.Body.{Body};
ghost use Rattle.module_ast.specs.Binary.{FitsCode, vec_section};
ghost use Rattle.wasm_encode.specs.Outline.{entry_bytes, entries_bytes};

use crate::numbers::put_sized;
use crate::outline::{code_section_length, put_code_head};
use crate::vectors::Encode;
use leb_binary::{put_u64, unsigned_length};
use module_ast::module::Body;
use std::alloc::{AllocError, Global};

// The number of bytes of a body and of its size in front.
fn entry_length(body: &Body) -> u64
    requires { length (entry_bytes body.now) < 2 ^ 63 }
    ensures length { result ≡ length (entry_bytes body.now) }
    ensures fit { FitsCode body.now.code }
{
    let size = body.spelled_length();
    unsigned_length(size) + size
}

/// The number of bytes of the entries of these bodies. Only this call counts them.
#[tactic(auto, using(std::proofs::lemmas::Grind::common_steps))]
pub fn entries_length(bodies: &[Body]) -> u64
    requires { length (entries_bytes bodies.now) < 2 ^ 63 }
    ensures length { result ≡ length (entries_bytes bodies.now) }
    ensures fit { All (λ (b : Body). FitsCode b.code) bodies.now }
{
    let mut total = 0;
    for body in bodies {
        total += entry_length(body);
    }
    total
}

// Appends the entries of these bodies. Each body is first written apart, so that its bytes can be counted.
#[tactic(auto, using(std::proofs::lemmas::Grind::common_steps))]
fn put_entries(alloc: Global, out: &mut Vec<u8>, bodies: &[Body]) -> Result<(), AllocError>
    ensures { OnOk result (out.new.items ≡ out.old.items ++ entries_bytes bodies.now) }
{
    let mut content = Vec::new(alloc);
    for body in bodies {
        content.clear();
        body.put(&mut content)?;
        put_sized(out, &content)?;
    }
    Ok(())
}

/// The number of bytes of the code section, if the entries of its bodies have `size` bytes.
#[tactic(auto, using(crate::proofs::Outlines::code_section_is, crate::proofs::Outlines::entries_within))]
pub fn bodies_section_length(bodies: &[Body], size: u64) -> u64
    requires size { size ≡ length (entries_bytes bodies.now) }
    requires room { length (vec_section 10 entry_bytes bodies.now) < 2 ^ 63 }
    ensures { result ≡ length (vec_section 10 entry_bytes bodies.now) }
{
    code_section_length(bodies.len() as u64, size)
}

/// Appends the code section, if the entries of its bodies have `size` bytes; nothing if there is no body.
#[tactic(auto, using(crate::proofs::Outlines::code_section_is, crate::proofs::Outlines::entries_within))]
pub fn put_bodies_section(
    alloc: Global,
    out: &mut Vec<u8>,
    bodies: &[Body],
    size: u64,
) -> Result<(), AllocError>
    requires size { size ≡ length (entries_bytes bodies.now) }
    requires room { length (vec_section 10 entry_bytes bodies.now) < 2 ^ 63 }
    ensures { OnOk result (out.new.items ≡ out.old.items ++ vec_section 10 entry_bytes bodies.now) }
{
    put_code_head(out, bodies.len() as u64, size)?;
    put_entries(alloc, out, bodies)?;
    Ok(())
}
