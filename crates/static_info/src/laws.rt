// What holds of all information.

ghost use Rattle.static_info.specs.Info.{InfosHaveForm};
ghost use Rattle.static_info.specs.Json.{InfosAreUnique, TextsHoldInfos};
ghost use Rattle.static_info.specs.Read.{EventsAreTold};

/// Bytes hold at most one `Info`. So `from_json` reads from a text that `to_json` wrote the same `Info` that the text was
/// written from.
pub fn infos_are_unique()
    ensures { InfosAreUnique }
{}

/// The information on each valid and whole module, with any groups, has the form of all information. This is the form of what
/// `info_of` returns, `to_json` writes and `from_json` reads.
pub fn infos_have_form()
    ensures { InfosHaveForm }
{}

/// The text that `to_json` writes for information of the right form holds that information, so `from_json` reads it from there
/// again.
pub fn texts_hold_infos()
    ensures { TextsHoldInfos }
{}

/// The event that a hook call reads as, of every key but that of br_table, has the fields that the hook of the key tells.
pub fn events_are_told()
    ensures { EventsAreTold }
{}
