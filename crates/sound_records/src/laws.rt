//! What keeps records sound.
ghost use Rattle.sound_records.specs.Giving.{LinesAreGiven};
ghost use Rattle.sound_records.specs.Laws.{EntriesKeepSound, NoRecordsAreSound, SweepsKeepSound};
ghost use Rattle.sound_records.specs.Saying.{PayloadsAreSound};

/// Law: where there are no records, all are sound.
pub fn no_records_are_sound()
    ensures { NoRecordsAreSound }
{}

/// Law: a sound entry keeps sound records so.
pub fn entries_keep_sound()
    ensures { EntriesKeepSound }
{}

/// Law: a sweep keeps sound records so, whatever it leaves.
pub fn sweeps_keep_sound()
    ensures { SweepsKeepSound }
{}

/// Law: what a payload says is sound, whatever the parts of its operation are (F), where the types that they
/// lead to are object types.
pub fn payloads_are_sound<F>()
    ensures { PayloadsAreSound F }
{}

/// Law: the names, ids and commands of each line are such as a line can give.
pub fn lines_are_given()
    ensures { LinesAreGiven }
{}
