// Two hooks put behind the one import of a module, of which only what names functions is there.

ghost use Rattle.std.specs.Prelude.{◌≡◌, [], ◌∷◌, All, IfOk};
ghost use Rattle.module_ast.specs.Structure.{block, call, done, plain, return_, code_of};
ghost use Rattle.module_ast.specs.declared.code.BlockType.TheVariants.{Empty};
ghost use Rattle.wasm_sem.specs.Types.{Element, Export};
ghost use Rattle.index_remap.specs.Remap.{MapsIndex, MapsReference, MapsModule};

use index_remap::Remap;
use module_ast::code::{BlockType, Code, Instr};
use module_ast::module::{Element, Export, ExportKind, Module};
use module_ast::name::Name;
use module_ast::seq::Seq;
use std::alloc::{AllocError, Global};
use std::test::Fail;

const TWO_HOOKS: Remap = Remap {
    imports: 1,
    added: 2,
};

// block, call 0, end, return, call 1, end: the last call is not live
fn body(alloc: Global) -> Result<Code, AllocError>
    ensures { IfOk result (λ code. code ≡ block Empty (plain (call 0) done) (plain return_ (plain (call 1) done))) }
{
    let inside = Code::from_vec(alloc, vec![in alloc; Instr::Call(0)]?)?;
    let items = vec![in alloc;
        Instr::Block(BlockType::Empty, inside),
        Instr::Return,
        Instr::Call(1),
    ]?;
    Code::from_vec(alloc, items)
}

// Whether the code is that body with its last call raised, and not the first.
fn is_risen(code: &Code) -> bool {
    match code.as_slice() {
        [Instr::Block(_, inside), Instr::Return, Instr::Call(last)] => *last == 3
            && matches!(inside.as_slice(), [Instr::Call(0)]),
        _ => false,
    }
}

fn mapped(alloc: Global) -> Result<Code, AllocError> {
    let code = body(alloc)?;
    TWO_HOOKS.map_code(alloc, &code)
}

#[test]
fn calls_rise_behind_the_imports(rt: HostRuntime) -> Result<(), Fail> {
    let copy = mapped(rt.alloc())?;
    assert!(rt; is_risen(&copy));
    Ok(())
}

fn name(alloc: Global, text: &str) -> Result<Name, AllocError> {
    Ok(Name::from_string(String::from_str(alloc, text)?))
}

fn zero(alloc: Global) -> Result<Code, AllocError> {
    Code::from_vec(alloc, vec![in alloc; Instr::I32Const(0)]?)
}

fn export(alloc: Global, kind: ExportKind, index: u32) -> Result<Export, AllocError>
    ensures { IfOk result (λ export. (export.kind ≡ kind) × (export.index ≡ index)) }
{
    let name = name(alloc, "f")?;
    Ok(Export { name, kind, index })
}

fn element(alloc: Global, func: u32) -> Result<Element, AllocError>
    ensures { IfOk result (λ element. element.funcs ≡ func ∷ []) }
{
    let offset = zero(alloc)?;
    let funcs = Seq::from_vec(vec![in alloc; func]?);
    Ok(Element {
        table: 0,
        offset,
        funcs,
    })
}

fn none<T>(alloc: Global) -> Seq<T> {
    Seq::from_vec(Vec::new(alloc))
}

// A function and a table.
fn exports(alloc: Global) -> Result<Seq<Export>, AllocError>
    ensures { IfOk result (All (λ (e : Export). MapsReference TWO_HOOKS e.kind e.index)) }
{
    let function = export(alloc, ExportKind::Func, 2)?;
    let table = export(alloc, ExportKind::Table, 2)?;
    Ok(Seq::from_vec(vec![in alloc; function, table]?))
}

// One of the import, and one of the last function.
fn elements(alloc: Global) -> Result<Seq<Element>, AllocError>
    ensures { IfOk result (All (λ (e : Element). All (MapsIndex TWO_HOOKS) e.funcs)) }
{
    let first = element(alloc, 0)?;
    let second = element(alloc, 2)?;
    Ok(Seq::from_vec(vec![in alloc; first, second]?))
}

// What names the functions of the module.
#[derive(Drop)]
struct References {
    funcs: Seq<u32>,
    exports: Seq<Export>,
    elements: Seq<Element>,
}

fn naming(alloc: Global) -> Result<References, AllocError>
    ensures exports { IfOk result (λ n. All (λ (e : Export). MapsReference TWO_HOOKS e.kind e.index) n.exports) }
    ensures elements { IfOk result (λ n. All (λ (e : Element). All (MapsIndex TWO_HOOKS) e.funcs) n.elements) }
{
    let funcs = Seq::from_vec(vec![in alloc; 0, 0]?);
    let exports = exports(alloc)?;
    let elements = elements(alloc)?;
    Ok(References {
        funcs,
        exports,
        elements,
    })
}

fn module(alloc: Global) -> Result<Module, AllocError>
    ensures { IfOk result (MapsModule TWO_HOOKS) }
{
    let naming = naming(alloc)?;
    Ok(Module {
        types: none(alloc),
        imports: none(alloc),
        funcs: naming.funcs,
        tables: none(alloc),
        memories: none(alloc),
        globals: none(alloc),
        exports: naming.exports,
        start: Some(1),
        elements: naming.elements,
        bodies: none(alloc),
        segments: none(alloc),
        customs: none(alloc),
    })
}

// The module with the hooks.
fn remapped(alloc: Global) -> Result<Module, AllocError> {
    let m = module(alloc)?;
    TWO_HOOKS.map_module(alloc, &m)
}

// Whether two exports, of a function and of a table, have these indices.
fn are_exports(exports: &[Export], function: u32, table: u32) -> bool {
    match exports {
        [first, second] => first.index == function && second.index == table,
        _ => false,
    }
}

// Whether the element has one function, of this index.
fn is_element(element: &Element, func: u32) -> bool {
    match element.funcs.as_slice() {
        [found] => *found == func,
        _ => false,
    }
}

// Whether there are two elements, each of one function, of these indices.
fn are_elements(elements: &[Element], first: u32, second: u32) -> bool {
    match elements {
        [one, other] => is_element(one, first) && is_element(other, second),
        _ => false,
    }
}

fn has_risen(m: &Module) -> bool {
    are_exports(m.exports.as_slice(), 4, 2)
        && m.start == Some(3)
        && are_elements(m.elements.as_slice(), 0, 4)
}

#[test]
fn references_rise_behind_the_imports(rt: HostRuntime) -> Result<(), Fail> {
    let copy = remapped(rt.alloc())?;
    assert!(rt; has_risen(&copy));
    Ok(())
}
