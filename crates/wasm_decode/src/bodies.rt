// The bodies of functions (5.5.13).

ghost use Rattle.std.specs.Prelude.{◌≡◌, ◌≤◌, ℕ, List, true, map, length, MatchOption, IfOk, IsErrOf};
ghost use Rattle.module_ast.specs.Binary.{IsNoBody, IsBody, IsSized, some_in};
ghost use Rattle.module_ast.specs.Validation.Limits.{deepest, longest_file};
ghost use Rattle.module_ast.specs.Binary.Grammar as grammar;
ghost use Rattle.module_ast.specs.Binary.Profile as profile;
ghost use Rattle.code_decode.specs.Locals.{group_floats};
ghost use Rattle.wasm_decode.specs.Built.{IsBuilt};
ghost use Rattle.wasm_decode.specs.Kinds.{body_form};
ghost use Rattle.wasm_decode.specs.Makes.{body_by};
ghost use Rattle.wasm_decode.specs.Parts.{IsPiece};
ghost use Rattle.code_decode.proofs.Items.{one_sized_tree, whole_one, one_body};

use crate::part::{Entry, Piece};
use code_decode::{Expr, Fault, read_expr, read_locals};
use leb_binary::Cursor;
use module_ast::code::Code;
use module_ast::module::{Body, Group};
use module_ast::seq::Seq;
use std::alloc::{AllocError, Global};

// A body, from its locals and its code as they were read.
fn make_body(
    alloc: Global,
    groups: Option<Vec<Group>>,
    code: Expr,
) -> Result<Piece<Body>, AllocError>
    ensures { (bound : ℕ) (gs : List grammar.GroupNode) (t : grammar.CodeNode) → MatchOption groups (some_in group_floats gs ≡ true) (λ v. gs ≡ map profile.group_node v.items) → IsBuilt bound code t → IfOk result (λ p. IsPiece body_form bound p (body_by gs t)) }
{
    let Some(groups) = groups else {
        return Ok(Piece::Floats);
    };
    let groups = Seq::from_vec(groups);
    match code {
        Expr::Built(code) => Ok(Piece::Whole(Body { groups, code })),
        Expr::Floats => Ok(Piece::Floats),
        Expr::Deep { found } => {
            let code = Code::new(alloc)?;
            Ok(Piece::Deep(Body { groups, code }, found))
        }
    }
}

/// Reads the body that these bytes are (5.5.13).
pub fn read_body(alloc: Global, content: &[u8], nesting: u32) -> Result<Piece<Body>, Fault>
    requires bytes { length content.now ≤ longest_file }
    requires nesting { nesting ≤ deepest }
    ensures ok { IfOk result (λ p. (b : grammar.BodyNode) × IsBody content.now b × IsPiece body_form nesting p b) }
    ensures malformed { IsErrOf result Fault.Malformed → IsNoBody content.now }
{
    let mut cursor = Cursor::new(content);
    let groups = read_locals(alloc, &mut cursor)?;
    let code = read_expr(alloc, &mut cursor, nesting)?;
    if cursor.left() != 0 {
        return Err(Fault::Malformed);
    }
    let body = make_body(alloc, groups, code)?;
    Ok(body)
}

/// The entries of the code section (5.5.13): bodies, each behind its size.
pub struct Bodies;

impl Entry for Bodies {
    type Value = Body;

    ghost Shape = { grammar.BodyNode };

    ghost is = { IsSized IsBody };

    ghost form = { body_form };

    fn read(alloc: Global, cursor: &mut Cursor, nesting: u32) -> Result<Piece<Body>, Fault> {
        let size = cursor.read_u32()?;
        let content = cursor.take(size)?;
        let body = read_body(alloc, content, nesting)?;
        Ok(body)
    }

    ghost one = { one_sized_tree IsBody (whole_one IsBody one_body) };
}
