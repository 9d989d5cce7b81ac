//! Entries over a base, and over what a sweep leaves of it. F is what stands below a field.
ghost use Rattle.store_sweeps.specs.Swept.{EntriesStayWithin, LeadsAreWithin, LeadsAreEnough, SweepsAreUnderLayers, ReachesStayUnderLayers, ReadsStayUnderLayers};
ghost use Rattle.store_sweeps.specs.Meets.{SweepsMeetUnderLayers};

/// Law: within a set that an entry does not lead out of, it does the same on both maps.
pub fn entries_stay_within()
    ensures { EntriesStayWithin }
{}

/// Law: what ids lead to in a base is such a set, for the base and for what is left of it.
pub fn leads_are_within()
    ensures { LeadsAreWithin }
{}

/// Law: maps with the same slots at all that ids lead to lead to the same.
pub fn leads_are_enough()
    ensures { LeadsAreEnough }
{}

/// Law: folds over a base and over what a sweep leaves of it differ at most at the ids taken out.
pub fn sweeps_are_under_layers()
    ensures { SweepsAreUnderLayers }
{}

/// Law: what is reached in the one fold has the same slots in the other.
pub fn reaches_stay_under_layers<F>()
    ensures { ReachesStayUnderLayers F }
{}

/// Law: so reads are the same in both.
pub fn reads_stay_under_layers<F>()
    ensures { ReadsStayUnderLayers F }
{}

/// Law: sweeps of bases that are alike but for ids that nothing reaches and nothing leads to leave the same.
pub fn sweeps_meet_under_layers()
    ensures { SweepsMeetUnderLayers }
{}
