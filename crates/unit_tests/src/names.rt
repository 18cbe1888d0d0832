// Names that are read of a module, taken to an output and back, and written.

ghost use Rattle.std.specs.Prelude.{◌<◌, All, IfOk, OnOk};
ghost use Rattle.name_map.specs.Sections.{IsFile};

use crate::files::bytes_of;
use index_remap::Remap;
use module_ast::module::{LONGEST_FILE, Limits};
use name_map::laws::modules_are_files;
use name_map::{Names, map_names, put_section, read_names, unmap_names};
use std::alloc::Global;
use std::test::Fail;
use wasm_decode::decode;

// A module of an imported function and one of its own, without custom sections.
static MODULE: &str =
    "0061736D01000000 01060160017F017F 020D0103656E76057072696E740000 03020100 04050170010101 0503010002 0608017F01418088040B 071202066D656D6F72790200 05746F74616C0001 0A38013601017F2380808080004110 6B2201248080808000200120003602 0C200128020C10808080800021002001 41106A24808080800020000B";

// Takes bytes that are a module as they are, and refuses others.
fn is_module(alloc: Global, bytes: &[u8]) -> Result<(), Fail>
    ensures { OnOk result (IsFile bytes.now) }
{
    if bytes.len() as u64 > LONGEST_FILE {
        return Err("too long".into());
    }
    let Ok(module) = decode(alloc, bytes, &Limits::wide()) else {
        return Err("no module".into());
    };
    modules_are_files();
    Ok(())
}

// The names of the module with these sections behind it.
fn names_of(alloc: Global, sections: &str) -> Result<Names, Fail>
    ensures functions { IfOk result (λ names. All (λ n. n.index < 2) names.functions) }
    ensures locals { IfOk result (λ names. All (λ l. l.func < 2) names.locals) }
{
    let mut file = bytes_of(alloc, MODULE)?;
    let bytes = bytes_of(alloc, sections)?;
    file.extend_from_slice(&bytes)?;
    is_module(alloc, &file)?;
    Ok(read_names(alloc, &file, 2)?)
}

// Whether names are written so.
fn are_written(alloc: Global, names: &Names, text: &str) -> Result<bool, Fail> {
    let mut section = Vec::new(alloc);
    put_section(alloc, &mut section, names)?;
    let wanted = bytes_of(alloc, text)?;
    Ok(section.as_slice() == wanted.as_slice())
}

// Whether names of an output are written so, when they are taken back.
fn come_back(alloc: Global, mapped: &Names, remap: Remap, text: &str) -> Result<bool, Fail> {
    let names = unmap_names(alloc, mapped, remap)?;
    are_written(alloc, &names, text)
}

// Whether names are written so in an output with 15 hooks, and so when they are taken back from there.
fn map_both_ways(alloc: Global, names: &Names, there: &str, back: &str) -> Result<bool, Fail>
    requires functions { All (λ n. n.index < 2) names.now.functions }
    requires locals { All (λ l. l.func < 2) names.now.locals }
{
    let remap = Remap {
        imports: 1,
        added: 15,
    };
    let mapped = map_names(alloc, names, remap)?;
    Ok(are_written(alloc, &mapped, there)? && come_back(alloc, &mapped, remap, back)?)
}

// The same of the names of the module with these sections.
fn names_follow(alloc: Global, sections: &str, there: &str, back: &str) -> Result<bool, Fail> {
    let names = names_of(alloc, sections)?;
    map_both_ways(alloc, &names, there, back)
}

// What the module carries behind its last section, its names in the output, and the names taken back.
static SECTIONS: [(&str, &str, &str); 18] = [
    ("", "", ""),
    (
        "000F046E616D65 0108 0101 05746F74616C",
        "000F046E616D65 0108 0110 05746F74616C",
        "000F046E616D65 0108 0101 05746F74616C",
    ),
    // behind another section, and with a padded size
    (
        "000B0970726F64756365727300 0013 84808080006E616D65 0108 0101 05746F74616C",
        "000F046E616D65 0108 0110 05746F74616C",
        "000F046E616D65 0108 0101 05746F74616C",
    ),
    // a second section is not read, nor a second subsection
    (
        "000F046E616D65 0108 0101 05746F74616C 000B046E616D65 0104 01 010161",
        "000F046E616D65 0108 0110 05746F74616C",
        "000F046E616D65 0108 0101 05746F74616C",
    ),
    // the names of the module, of functions and of locals
    (
        "001B046E616D65 0002016D 0108010105746F74616C 0206010101000178",
        "001B046E616D65 0002016D 0108011005746F74616C 0206011001000178",
        "001B046E616D65 0002016D 0108010105746F74616C 0206010101000178",
    ),
    // a subsection that is not read, those of locals and of functions in this order, and a second one of functions
    (
        "001C046E616D65 0700 0206010101000178 0108010105746F74616C 010100",
        "0017046E616D65 0108011005746F74616C 0206011001000178",
        "0017046E616D65 0108010105746F74616C 0206010101000178",
    ),
    // an import's index stays
    (
        "000E046E616D65 0107 02 000161 010162",
        "000E046E616D65 0107 02 000161 100162",
        "000E046E616D65 0107 02 000161 010162",
    ),
    // functions that are not there, alone and beside one that is
    ("000F046E616D65 0108 0109 05746F74616C", "", ""),
    ("0013046E616D65 010C 01FFFFFFFF0F 05746F74616C", "", ""),
    (
        "000E046E616D65 0107 02 010161 090162",
        "000B046E616D65 0104 01 100161",
        "000B046E616D65 0104 01 010161",
    ),
    // a count of names that are not there
    ("000F046E616D65 0108 0201 05746F74616C", "", ""),
    // indices that fall, and that stay
    ("000E046E616D65 0107 02 010161 000162", "", ""),
    ("000E046E616D65 0107 02 010161 010162", "", ""),
    // a name that is no UTF-8
    ("000B046E616D65 0104 0101 01FF", "", ""),
    // a subsection that is longer than the section, one that its names do not fill, and a byte behind the last one
    ("000F046E616D65 0109 0101 05746F74616C", "", ""),
    ("0010046E616D65 0109 0101 05746F74616C 00", "", ""),
    ("0010046E616D65 0108 0101 05746F74616C 00", "", ""),
    // a section without names before one with names
    (
        "0005046E616D65 000F046E616D65 0108 0101 05746F74616C",
        "",
        "",
    ),
];

#[test]
fn names_follow_their_functions(rt: HostRuntime) -> Result<(), Fail> {
    for (sections, there, back) in SECTIONS {
        assert!(rt;
            names_follow(rt.alloc(), sections, there, back)?,
            "{sections}"
        );
    }
    Ok(())
}
