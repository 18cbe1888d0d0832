// Laws that make the answers of a decoder exact.

ghost use Rattle.module_ast.specs.Laws.{TreesAreUnique, FaultsAreUnique, FaultsHaveNoTree};
ghost use Rattle.code_decode.specs.Laws.{BodiesAreUnique, ExpressionsAreUnique};

/// The bytes of a file have one tree or one fault, and never both.
pub fn one_reading()
    ensures trees { TreesAreUnique }
    ensures faults { FaultsAreUnique }
    ensures apart { FaultsHaveNoTree }
{}

/// Bytes are at most one body, and begin with at most one expression.
pub fn one_body()
    ensures bodies { BodiesAreUnique }
    ensures expressions { ExpressionsAreUnique }
{}
