// What the ending of a plan tells.

ghost use Rattle.app_load.specs.Laws.{EndsTell, EndsDecided, EndsRefused};

/// For each plan, states what the status tells and what decides the status. The function does nothing when it runs.
pub fn ends_tell()
    ensures tell { EndsTell }
    ensures decided { EndsDecided }
    ensures refused { EndsRefused }
{}
