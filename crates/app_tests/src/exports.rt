// The functions that a script may call.

use module_ast::module::{Export, ExportKind};
use module_ast::name::Name;
use std::alloc::Global;
use std::test::Fail;
use wasm_num::NoMemory;
use wasm_run::exported_functions;

fn export(alloc: Global, name: &str, kind: ExportKind, index: u32) -> Result<Export, NoMemory> {
    Ok(Export {
        name: Name::from_string(String::from_str(alloc, name)?),
        kind,
        index,
    })
}

#[test]
fn first_function_of_a_name(rt: HostRuntime) -> Result<(), Fail> {
    let alloc = rt.alloc();
    let exports = vec![in alloc;
        export(alloc, "f", ExportKind::Memory, 2)?,
        export(alloc, "f", ExportKind::Func, 3)?,
        export(alloc, "f", ExportKind::Func, 4)?,
        export(alloc, "g", ExportKind::Func, 5)?,
    ]?;
    let functions = exported_functions(alloc, &exports)?;
    assert_eq!(rt; functions.get("f").copied(), Some(3));
    assert_eq!(rt; functions.get("g").copied(), Some(5));
    assert_eq!(rt; functions.get("h").copied(), None);
    Ok(())
}
