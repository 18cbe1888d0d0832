// Bytes behind an id and a size: the sections of a file (5.5.2), and the subsections of its `name` section.

ghost use Rattle.std.specs.Prelude.{◌≡◌, List, IfOk, OnErr, option_map};
ghost use Rattle.leb_binary.specs.Leb.{IsFront, HasNoFront};
ghost use Rattle.module_ast.specs.Binary.{AreItems};
ghost use Rattle.name_map.specs.Sections.{Chunk, chunk, IsChunk, content_of};

use leb_binary::{Bad, Cursor};

/// Takes an id, a size, and as many bytes. After an `Err` the cursor may be anywhere.
pub fn next_chunk<'b>(cursor: &mut Cursor<'b>) -> Result<(u8, &'b [u8]), Bad>
    ensures ok { IfOk result (λ c. IsFront IsChunk cursor.old.left cursor.new.left (chunk c.0 c.1.now)) }
    ensures bad { OnErr result (HasNoFront IsChunk cursor.old.left) }
{
    let id = cursor.byte()?;
    let size = cursor.read_u32()?;
    let content = cursor.take(size)?;
    Ok((id, content))
}

/// The content of the first chunk with this id, if there is one. `Bad` exactly if the bytes are not a sequence of
/// chunks.
pub fn find_chunk(bytes: &[u8], id: u8) -> Result<Option<&[u8]>, Bad>
    ensures ok { IfOk result (λ found. (cs : List Chunk) × AreItems IsChunk bytes.now cs × (option_map (λ c. c.now) found ≡ content_of id cs)) }
    ensures bad { OnErr result ((cs : List Chunk) → AreItems IsChunk bytes.now cs → ⊥) }
{
    let mut cursor = Cursor::new(bytes);
    let mut found = None;
    while cursor.left() > 0 {
        let (next, content) = next_chunk(&mut cursor)?;
        found = found.or((next == id).then_some(content));
    }
    Ok(found)
}
