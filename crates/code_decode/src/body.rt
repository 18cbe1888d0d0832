// The decoder of function bodies.

ghost use Rattle.std.specs.Prelude.{◌≡◌, ◌≤◌, ℕ, length, IfOk, IsErrOf};
ghost use Rattle.module_ast.specs.Binary.{GramBody, IsNoBody, BodyFloats, BodyExceeds};
ghost use Rattle.module_ast.specs.Places.{code_nesting};
ghost use Rattle.module_ast.specs.Validation.Limits.{deepest, longest_file};
ghost use Rattle.code_decode.specs.Locals.{body_fault};

use crate::expr::{Expr, read_expr};
use crate::fault::Fault;
use crate::locals::read_locals;
use leb_binary::Cursor;
use module_ast::module::Body;
use module_ast::seq::Seq;
use std::alloc::Global;

/// Why bytes are no body that is accepted. The first cause that applies is the answer.
#[derive(Debug, Drop)]
pub enum BodyFault {
    /// The bytes are no body of the grammar.
    Malformed,
    /// The bytes are a body with a floating-point type among its locals, or a floating-point type or instruction in its
    /// code.
    Float,
    /// The bytes are a body whose code nests `found` deep, which is above the bound.
    Nesting { found: u32 },
    /// Memory ran out.
    NoMemory,
}

impl From<Fault> for BodyFault {
    ghost from_gives = { λ fault e. e ≡ body_fault fault };

    fn from(fault: Fault) -> BodyFault {
        match fault {
            Fault::Malformed => BodyFault::Malformed,
            Fault::NoMemory => BodyFault::NoMemory,
        }
    }
}

/// The body that is these bytes, as an entry of the code section has them behind the size (5.5.13).
///
/// There are at most 268,435,456 bytes, and the bound for the nesting is at most 1,002. Each answer except `NoMemory`
/// says what the bytes are, and no two of these answers are true of the same bytes.
pub fn decode_body(alloc: Global, bytes: &[u8], nesting: u32) -> Result<Body, BodyFault>
    requires bytes { length bytes.now ≤ longest_file }
    requires nesting { nesting ≤ deepest }
    ensures ok { IfOk result (λ b. GramBody bytes.now b) }
    ensures within { IfOk result (λ b. code_nesting b.code ≤ nesting) }
    ensures malformed { IsErrOf result BodyFault.Malformed → IsNoBody bytes.now }
    ensures float { IsErrOf result BodyFault.Float → BodyFloats bytes.now }
    ensures nesting { (found : ℕ) → IsErrOf result (BodyFault.Nesting found) → BodyExceeds nesting bytes.now found }
{
    let mut cursor = Cursor::new(bytes);
    let groups = read_locals(alloc, &mut cursor)?;
    let expr = read_expr(alloc, &mut cursor, nesting)?;
    if cursor.left() != 0 {
        return Err(BodyFault::Malformed);
    }
    let Some(groups) = groups else {
        return Err(BodyFault::Float);
    };
    match expr {
        Expr::Built(code) => Ok(Body {
            groups: Seq::from_vec(groups),
            code,
        }),
        Expr::Floats => Err(BodyFault::Float),
        Expr::Deep { found } => Err(BodyFault::Nesting { found }),
    }
}
