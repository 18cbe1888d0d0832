// A law of the runs of all made modules.

ghost use Rattle.made_runs.specs.Runs.{MadeModulesEnd};

/// For each number, the run of the module that the number makes ends in at most 1,400,000 steps, even if the script
/// allows more. Its one call returns a value, so nothing traps. The reasons: a function calls only earlier functions of
/// its own type; a loop runs its body at most four times; all loads and stores are within the first page; and nothing
/// is divided.
pub fn made_modules_end()
    ensures { MadeModulesEnd }
{}
