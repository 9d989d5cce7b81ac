//! The laws of gathering (this project's own).
ghost use Rattle.store_report.specs.Gathering.{GatheringIsRight};
ghost use Rattle.store_report.specs.ObjectRows.{AddingIsRight};

/// Law: what several reports say, gathered one after the other, is what they say together, also where
/// the value of a field is set when what stands below it is said; and what is gathered of a report
/// alone is taken for what the report is taken for.
pub fn gathering_is_right()
    ensures { GatheringIsRight }
{}

/// What reports add to rows, one after another, they add together; does nothing.
pub fn adding_is_right()
    ensures { AddingIsRight }
{}
