// Why bytes are not decoded.

use module_ast::module::Which;

/// Why a file is not decoded. `Malformed` takes precedence over `Float`, and `Float` over `Limit`.
#[derive(Clone, Copy, Debug, PartialEq, Eq)]
pub enum DecodeFault {
    /// The bytes are no module. `section` is 256 if the header is wrong, and 257 if there are not as many bodies as
    /// functions. Otherwise it is the id byte of the first section that is malformed or out of order.
    Malformed { section: u16 },
    /// The module has a floating-point type or instruction. `section` is the id of the first section that has one.
    Float { section: u16 },
    /// A quantity is above its limit: the first such quantity, and the first number of it that is above.
    Limit { which: Which, value: u64 },
    /// Memory ran out.
    NoMemory,
}
