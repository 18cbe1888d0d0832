// What follows from the definitions.

ghost use Rattle.wasabi_app.specs.Alike.{OutputsPrintAlike, RunsPrintAlike};
ghost use Rattle.wasabi_app.specs.Composing.{KeptNamesComeBack, OutputsReport, SameRunsReport, TrialsTell};
ghost use Rattle.wasabi_app.specs.Handed.{WrittenIsTaken};
ghost use Rattle.wasabi_app.specs.KeptNames.{DroppedNamesLeaveNothing};
ghost use Rattle.wasabi_app.specs.Laws.{SomeFeed, SomeMake, SomeWrite};
ghost use Rattle.wasabi_app.specs.Nesting.{BadAreRefused, NodesCountPaths, OutputsNest};
ghost use Rattle.wasabi_app.specs.ReadBack.{OnlyScriptsAreRefused, OutputsAreRead};
ghost use Rattle.wasabi_app.specs.Replaying.{EventsHaveTrace, RecordingsReplay};
ghost use Rattle.wasabi_app.specs.Tagging.{TaintsTell, WarningsAreTagged};
ghost use Rattle.wasabi_app.specs.TrialEnds.{TrialsEnd};

/// What holds of some modes alone: which modes write, which give events to the analyses, and which refuse an output.
/// The proof says for each mode what it does; a new mode adds a line.
pub fn modes_alone()
    ensures writes { SomeWrite }
    ensures feed { SomeFeed }
    ensures make { SomeMake }
{}

/// If a module and one with hooks run alike under a script, and the run of the second is over, then the reports on the
/// second, with the information on the first, are those on the first one's selected events. Before its run is over, the
/// events of the second are the first of these. None of its events is a stray.
///
/// This holds for the output of each accepted file, read as a module, and the information on its original: with each
/// script with which the original links, the mode `report` prints the reports on the original's selected events.
pub fn reports_compose()
    ensures same_runs { SameRunsReport }
    ensures outputs { OutputsReport }
{}

/// The output of each accepted file prints what the original prints. The output links with each script with which the
/// original links, whatever its number of steps is. If the original's run is over in the `n` steps of the script, the
/// output's run is over in `cost * (n + 1)` steps. Whenever the output's run is over, its text is the original's, and
/// it ends in the same way. The output's run is over in no number of steps in which the original's run is not. So the
/// mode `run` has the same effect on both.
pub fn outputs_print_alike()
    ensures alike { OutputsPrintAlike }
    ensures runs { RunsPrintAlike }
{}

/// Each mode that reads an output takes what `instrument` wrote: `check` tells its counts, and `run` meets no bad read
/// except that of the script. `report`, `record` and `tree` take it with bytes that hold the information on its
/// original, if there are no more bytes than the program reads. These modes meet no other bad read either. So they
/// never end in 6, 7, 8 or 16, and they end in 3 because of the script alone. The information on a module of many wide
/// types and blocks can be longer than what the program reads.
pub fn outputs_are_read()
    ensures read { OutputsAreRead }
    ensures statuses { OnlyScriptsAreRefused }
{}

/// Two commands: `instrument`, and later `run`, `report`, `record` or `tree` on what it wrote. If the shelf has the same contents
/// at the end of the first and at the beginning of the second, then the second never ends with 6, 7, 8 or 16. It ends with 3
/// because of its script alone. A `report` prints the reports on the original's selected events. For the three modes that read
/// the information, this information must be no longer than what the program reads.
pub fn written_is_taken()
    ensures taken { WrittenIsTaken }
{}

/// What `instrument` writes without names is the output alone. If the names are written, a report on the output, with
/// the information on its original, has the names of the original's functions as the original's file carries them.
pub fn names_are_kept()
    ensures dropped { DroppedNamesLeaveNothing }
    ensures kept { KeptNamesComeBack }
{}

/// The module that is made of a number and its output run alike under the trial's script. If the output's run is over,
/// its events are those of the original, and each analysis holds their book. If both runs are over, their texts are
/// equal. None of the events is a stray.
pub fn trials_tell()
    ensures tell { TrialsTell }
{}

/// For each number, both runs of a trial are over in the steps that they are given. The call of the module returns a
/// value, and the run of its output ends as done, so nothing traps. So what `trials_tell` says of runs that are over
/// holds for every number.
pub fn trials_end()
    ensures end { TrialsEnd }
{}

/// What `record` writes is the trace of the events of its run, because the numbers of these events are of their sizes.
/// A later `replay` that finds these bytes, under whatever name, takes exactly these events. It prints what `report`,
/// in the place of `record`, would print after the text of the run.
pub fn recordings_replay()
    ensures trace { EventsHaveTrace }
    ensures replay { RecordingsReplay }
{}

/// For each accepted file, each script that links with its module, and whatever is watched: a shadow of the module
/// takes what its output with all hooks tells, and makes warnings. These warnings are exactly those of the module's run
/// with marks for as many host calls as the output's run makes. They are the first of all warnings that the run with
/// marks gives in the script's steps. They are all of them if the output's run is over. The mode `taint` prints these
/// warnings.
pub fn warnings_are_tagged()
    ensures tagged { WarningsAreTagged }
    ensures prints { TaintsTell }
{}

/// What the mode `tree` tells: each path of calls that came in the items of a run has its node, with the number of
/// begins with this path. No other path has a node. Items are refused exactly if they are bad, at the first end that
/// does not close the latest begin that is open. That never comes for the output of an accepted file with begins and
/// ends, in all functions or some, read as a module, and the information on its original: the output's items are the first
/// of the original's selected ones, which are well nested.
pub fn trees_tell()
    ensures counts { NodesCountPaths }
    ensures refusals { BadAreRefused }
    ensures outputs { OutputsNest }
{
    // for the proof: the trace of a valid module that imports no hook is well nested.
    wasm_sem::laws::traces_nest();
}
