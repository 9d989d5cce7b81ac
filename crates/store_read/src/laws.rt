//! The law of footprints: a read depends on nothing but what it met.
ghost use Rattle.store_read.specs.Footprints.{ReadsDependOnTheirFootprint};

/// Law: two maps that agree at the ids that a read by a plan stands at, and at the fields that it looks
/// at, give the same read; so do two maps with equal slots at the ids that it stands at.
pub fn reads_depend_on_their_footprint()
    ensures { ReadsDependOnTheirFootprint }
{}
