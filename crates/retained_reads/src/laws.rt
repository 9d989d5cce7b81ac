//! Reads of retained operations, before and after a sweep.
ghost use Rattle.retained_reads.specs.Laws.{SweepsKeepReads, SweepsKeepLayeredReads};

/// Law: a sweep changes no read of an operation that is retained, nor of a pointer that one gives: not
/// its data, what is missing, the ids stood at, nor the pointers.
pub fn sweeps_keep_reads()
    ensures { SweepsKeepReads }
{}

/// Law: so it is in each fold of some of the live layers over the records before and after the sweep.
pub fn sweeps_keep_layered_reads()
    ensures { SweepsKeepLayeredReads }
{}
