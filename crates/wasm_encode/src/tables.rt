// The table section (5.5.7), in which a byte is before the limits of each table.

ghost use Rattle.std.specs.Prelude.{◌≡◌, ◌++◌, ◌<◌, ◌^◌, OnOk, All, length};
ghost use Rattle.module_ast.specs.Binary.{FitsRange, table_bytes, vec_bytes, vec_section};

use crate::numbers::put_sized;
use crate::types::{put_table, table_length};
use leb_binary::{put_u64, unsigned_length};
use module_ast::module::Range;
use std::alloc::{AllocError, Global};

// The number of bytes of the tables with their number in front.
fn tables_length(tables: &[Range]) -> u64
    requires { length (vec_bytes table_bytes tables.now) < 2 ^ 63 }
    ensures length { result ≡ length (vec_bytes table_bytes tables.now) }
    ensures fit { All FitsRange tables.now }
{
    let mut total = unsigned_length(tables.len() as u64);
    for table in tables {
        total += table_length(table);
    }
    total
}

/// The number of bytes of the table section; 0 if there is no table.
#[tactic(auto, using(std::proofs::lemmas::Grind::common_steps))]
pub fn table_section_length(tables: &[Range]) -> u64
    requires { length (vec_section 4 table_bytes tables.now) < 2 ^ 63 }
    ensures length { result ≡ length (vec_section 4 table_bytes tables.now) }
    ensures fit { All FitsRange tables.now }
{
    if tables.is_empty() {
        return 0;
    }
    let size = tables_length(tables);
    1 + unsigned_length(size) + size
}

/// Appends the table section; nothing if there is no table.
#[tactic(auto, using(std::proofs::lemmas::Grind::common_steps))]
pub fn put_table_section(
    alloc: Global,
    out: &mut Vec<u8>,
    tables: &[Range],
) -> Result<(), AllocError>
    ensures { OnOk result (out.new.items ≡ out.old.items ++ vec_section 4 table_bytes tables.now) }
{
    if tables.is_empty() {
        return Ok(());
    }
    let mut content = Vec::new(alloc);
    put_u64(&mut content, tables.len() as u64)?;
    for table in tables {
        put_table(&mut content, table)?;
    }
    out.push(4)?;
    put_sized(out, &content)
}
