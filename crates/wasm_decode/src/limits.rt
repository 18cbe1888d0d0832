// Which quantities of a module are above their limits.

ghost use Rattle.std.specs.Prelude.{◌≡◌, ◌<◌, ◌≤◌, ◌^◌, ◌++◌, ℕ, List, length, map, MatchOption};
ghost use Rattle.module_ast.specs.Binary.{AreWithin, IsFirstAbove, IsFirstExceeded, bound_of, limited_counts, most_values, order_of, locals_of};
ghost use Rattle.module_ast.specs.declared.module.Body.{Body};
ghost use Rattle.module_ast.specs.declared.module.Which.{Which};
ghost use Rattle.wasm_decode.specs.Counts.{AreFew};

use module_ast::module::{Body, FuncType, Group, Limits, Module, Which};
use module_ast::spaces::Counts;

// The first number above the bound, if a type counts with its parameters or its results, whichever are more.
fn first_parameters(types: &[FuncType], bound: u32) -> Option<u64>
    ensures { MatchOption result (AreWithin bound (map most_values types.now)) (IsFirstAbove bound (map most_values types.now)) }
{
    for ty in types {
        let params = ty.params.as_slice().len();
        let count = params.max(ty.results.as_slice().len()) as u64;
        if count > bound as u64 {
            return Some(count);
        }
    }
    None
}

// How many locals the groups declare.
fn locals(groups: &[Group]) -> u64
    requires { locals_of groups.now < 2 ^ 32 }
    ensures { result ≡ locals_of groups.now }
{
    let mut total: u64 = 0;
    for group in groups {
        total += group.count as u64;
    }
    total
}

// The first number of locals above the bound.
fn first_locals(bodies: &[Body], bound: u32) -> Option<u64>
    requires few { AreFew bodies.now }
    ensures { MatchOption result (AreWithin bound (map (λ (b : Body). locals_of b.groups) bodies.now)) (IsFirstAbove bound (map (λ (b : Body). locals_of b.groups) bodies.now)) }
{
    for body in bodies {
        let count = locals(body.groups.as_slice());
        if count > bound as u64 {
            return Some(count);
        }
    }
    None
}

/// The first of functions, types, parameters and locals that is above its limit, with the first number that is; `None`
/// if none is.
pub fn first_exceeded(kept: &Module, limits: &Limits) -> Option<(Which, u64)>
    requires few { AreFew kept.now.bodies }
    ensures { MatchOption result ((w : Which) → order_of w < 4 → AreWithin (bound_of limits.now w) (limited_counts kept.now w)) (λ p. (order_of p.0 < 4) × IsFirstExceeded limits.now kept.now p.0 p.1) }
{
    let functions = Counts::of(kept).funcs as u64;
    if functions > limits.functions as u64 {
        return Some((Which::Functions, functions));
    }
    let types = kept.types.as_slice().len() as u64;
    if types > limits.types as u64 {
        return Some((Which::Types, types));
    }
    if let Some(count) = first_parameters(kept.types.as_slice(), limits.parameters) {
        return Some((Which::Parameters, count));
    }
    if let Some(count) = first_locals(kept.bodies.as_slice(), limits.locals) {
        return Some((Which::Locals, count));
    }
    None
}
