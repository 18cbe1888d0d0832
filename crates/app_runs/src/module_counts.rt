// How many of each thing a module has.

ghost use Rattle.std.specs.Prelude.{◌≡◌, ◌+◌, ◌≤◌, IfOk, string_bytes};
ghost use Rattle.module_ast.specs.Validation.{IsWhole, longest_file};
ghost use Rattle.app_runs.specs.Texts.{counts_in, counts_of, instruction_count, ok_text};

use module_ast::counts::positions;
use module_ast::module::{Body, Module};
use std::alloc::{AllocError, Global};

/// How many of each thing a module has. Of functions, tables, memories and globals, only those count that the module
/// defines itself.
#[derive(Clone, Copy)]
pub struct ModuleCounts {
    /// Function types.
    pub types: usize,
    /// Imports of any sort.
    pub imports: usize,
    /// Functions that are not imported.
    pub functions: usize,
    /// Tables that are not imported.
    pub tables: usize,
    /// Memories that are not imported.
    pub memories: usize,
    /// Globals that are not imported.
    pub globals: usize,
    /// Exports of any sort.
    pub exports: usize,
    /// Element segments.
    pub elements: usize,
    /// Data segments.
    pub segments: usize,
    /// Instructions of all bodies, with the closing `end` of each body.
    pub instructions: u64,
}

impl ModuleCounts {
    ghost use Rattle.app_runs.specs.Texts.{first_counts_text, last_counts_text, counts_in};

    // The first half of the line.
    fn first_half(&self, alloc: Global) -> Result<String, AllocError>
        ensures { IfOk result (λ text. string_bytes text ≡ first_counts_text (counts_in self.now)) }
    {
        let ModuleCounts {
            types,
            imports,
            functions,
            tables,
            memories,
            ..
        } = *self;
        format!(in alloc;
            "ok types {types} imports {imports} functions {functions} tables {tables} memories {memories}"
        )
    }

    // The second half of the line.
    fn second_half(&self, alloc: Global) -> Result<String, AllocError>
        ensures { IfOk result (λ text. string_bytes text ≡ last_counts_text (counts_in self.now)) }
    {
        let ModuleCounts {
            globals,
            exports,
            elements,
            segments,
            instructions,
            ..
        } = *self;
        format!(in alloc;
            " globals {globals} exports {exports} elements {elements} segments {segments} instructions {instructions}\n"
        )
    }

    /// The line that tells the counts, with its newline. An `Err` comes only if memory runs out.
    pub fn line(&self, alloc: Global) -> Result<String, AllocError>
        ensures { IfOk result (λ line. string_bytes line ≡ ok_text (counts_in self.now)) }
    {
        let first = self.first_half(alloc)?;
        let second = self.second_half(alloc)?;
        format!(in alloc; "{first}{second}")
    }
}

/// The counts of a module. The function looks at each body, but does not walk over its instructions.
pub fn count(m: &Module) -> ModuleCounts
    requires { IsWhole m.now }
    ensures { counts_in result ≡ counts_of m.now }
{
    ModuleCounts {
        types: m.types.as_slice().len(),
        imports: m.imports.as_slice().len(),
        functions: m.funcs.as_slice().len(),
        tables: m.tables.as_slice().len(),
        memories: m.memories.as_slice().len(),
        globals: m.globals.as_slice().len(),
        exports: m.exports.as_slice().len(),
        elements: m.elements.as_slice().len(),
        segments: m.segments.as_slice().len(),
        instructions: instructions(m.bodies.as_slice()),
    }
}

// The number of positions of these bodies, with the closing `end` of each body.
fn instructions(bodies: &[Body]) -> u64
    requires { instruction_count bodies.now ≤ longest_file }
    ensures { result ≡ instruction_count bodies.now }
{
    let mut count = 0;
    for body in bodies {
        count += positions(&body.code);
    }
    count
}
