// A law of labels at the positions of a body.

ghost use Rattle.branch_resolve.specs.Scopes.{AroundAnswer, ReadAround};

/// If the blocks are those around a position of a body, `Scopes::target` answers where each label leads from there, and
/// `None` exactly if the label is past the function's block. `Scopes::ends` answers the ends that a branch from there
/// passes. The blocks of a walk over the body are those around the position of the place that it read last.
pub fn scopes_answer()
    ensures answer { AroundAnswer }
    ensures around { ReadAround }
{}
