//! What is sound of accepted projects.
ghost use Rattle.sound_answers.specs.Laws.{AcceptedSaySoundly, AcceptedStatesAreSound, AcceptedStepsKeepSound};

/// Law: what a response says to an operation of an accepted project is sound.
pub fn accepted_say_soundly()
    ensures { AcceptedSaySoundly }
{}

/// Law: each line keeps a sound state of an accepted project so.
pub fn accepted_steps_keep_sound()
    ensures { AcceptedStepsKeepSound }
{}

/// Law: the state of an accepted project after each of the lines of a script is sound, and so are its
/// records, those that are confirmed and those that are seen.
pub fn accepted_states_are_sound()
    ensures { AcceptedStatesAreSound }
{}
