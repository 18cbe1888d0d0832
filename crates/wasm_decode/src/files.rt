// The sections of a file, in order.

ghost use Rattle.std.specs.Prelude.{◌≡◌, ◌≢◌, ◌<◌, ◌≤◌, ◌⊎◌, true, false, ℕ, List, ◌++◌, length, IfOk, IfSome, MatchOption, IsErrOf};
ghost use Rattle.leb_binary.specs.Leb.{IsFront, HasNoFront};
ghost use Rattle.module_ast.specs.Binary.{Section, AreItems, AreOrdered, IsSection, header, module_of};
ghost use Rattle.module_ast.specs.declared.module.Which.{Which};
ghost use Rattle.module_ast.specs.Validation.Limits.{deepest, longest_file};
ghost use Rattle.wasm_decode.specs.Drafts.{IsDraft};
ghost use Rattle.wasm_decode.specs.Files.{AreBytes, FailsAt};

use crate::draft::Draft;
use crate::fault::DecodeFault;
use crate::sections::read_section;
use code_decode::Fault;
use leb_binary::Cursor;
use std::alloc::Global;

const HEADER: [u8; 8] = [0x00, 0x61, 0x73, 0x6D, 0x01, 0x00, 0x00, 0x00];

/// The bytes behind the header (5.5.15); `None` if they do not begin with the header.
pub fn behind_header(bytes: &[u8]) -> Option<&[u8]>
    ensures is { MatchOption result ((rest : List ℕ) → bytes.now ≢ header ++ rest) (λ rest. bytes.now ≡ header ++ rest.now) }
    ensures bytes { IfSome result (λ rest. AreBytes rest.now) }
{
    let rest = bytes.strip_prefix(&HEADER)?;
    Some(rest)
}

// The fault of a file in whose section with this id reading stopped.
fn stopped(fault: Fault, id: u8) -> DecodeFault
    ensures malformed { (n : ℕ) → result ≡ DecodeFault.Malformed n → (fault ≡ Fault.Malformed) × (n ≡ id) }
    ensures float { (n : ℕ) → result ≡ DecodeFault.Float n → ⊥ }
    ensures limit { (w : Which) (v : ℕ) → result ≡ DecodeFault.Limit w v → ⊥ }
{
    match fault {
        Fault::Malformed => DecodeFault::Malformed { section: id as u16 },
        Fault::NoMemory => DecodeFault::NoMemory,
    }
}

// Whether a section may follow: a custom section may be anywhere, the others come by rising ids (5.5.2).
fn in_order(id: u8, last: u8) -> bool
    ensures yes { result ≡ true → (id ≡ 0) ⊎ (last < id) }
    ensures no { result ≡ false → (id ≢ 0) × (id ≤ last) }
{
    id == 0 || last < id
}

/// Takes all the sections that are left. After an `Err` the cursor may be anywhere.
pub fn read_sections(alloc: Global, cursor: &mut Cursor, nesting: u32) -> Result<Draft, DecodeFault>
    requires fits { AreBytes cursor.now.left }
    requires bytes { length cursor.now.left ≤ longest_file }
    requires nesting { nesting ≤ deepest }
    ensures ok { IfOk result (λ d. (ss : List Section) × AreItems IsSection cursor.old.left ss × AreOrdered 0 ss × IsDraft nesting d (module_of ss)) }
    ensures malformed { (n : ℕ) → IsErrOf result (DecodeFault.Malformed n) → FailsAt cursor.old.left n }
    ensures float { (n : ℕ) → IsErrOf result (DecodeFault.Float n) → ⊥ }
    ensures limit { (w : Which) (v : ℕ) → IsErrOf result (DecodeFault.Limit w v) → ⊥ }
{
    let mut draft = Draft::new(alloc);
    let mut last = 0;
    loop {
        let Ok(id) = cursor.byte() else {
            return Ok(draft);
        };
        let ordered = in_order(id, last);
        if !ordered {
            return Err(DecodeFault::Malformed { section: id as u16 });
        }
        match read_section(alloc, &mut draft, id, cursor, nesting) {
            Ok(()) => {}
            Err(fault) => return Err(stopped(fault, id)),
        }
        last = last.max(id);
    }
}
