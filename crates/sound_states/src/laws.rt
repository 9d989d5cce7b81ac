//! What keeps states named, and what keeps them sound.
ghost use Rattle.sound_states.specs.Laws.{BeginningIsNamed, BeginningIsSound, RecordsAreSound, StepsKeepNamed, StepsKeepSound};

/// Law: the state in which the machine begins is named.
pub fn beginning_is_named()
    ensures { BeginningIsNamed }
{}

/// Law: each line keeps a named state so: the names of what is live are apart, and the handles of watches are live.
pub fn steps_keep_named()
    ensures { StepsKeepNamed }
{}

/// Law: the state in which the machine begins is sound.
pub fn beginning_is_sound()
    ensures { BeginningIsSound }
{}

/// Law: each line keeps a sound state so, where what responses say is sound.
pub fn steps_keep_sound()
    ensures { StepsKeepSound }
{}

/// Law: the records of a sound state are sound, those that are confirmed and those that are seen.
pub fn records_are_sound()
    ensures { RecordsAreSound }
{}
