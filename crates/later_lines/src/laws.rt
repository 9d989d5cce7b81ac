//! Two states of the machine that are alike but for some ids.
ghost use Rattle.later_lines.specs.Laws.{LinesStayAlike, QuietSweepsAddNothing, SweepsLeaveAlike, SweepsMeet};

/// Law: a line that does not sweep, and looks at none of the ids, writes the same from both states, and
/// leaves them alike.
pub fn lines_stay_alike()
    ensures { LinesStayAlike }
{}

/// Law: a state, and the same with a sweep added, are alike but for the dropped ids.
pub fn sweeps_leave_alike()
    ensures { SweepsLeaveAlike }
{}

/// Law: after a line that sweeps and gives no notice the state is the one before it with the sweep
/// added.
pub fn quiet_sweeps_add_nothing()
    ensures { QuietSweepsAddNothing }
{}

/// Law: alike states meet again in a line that sweeps, where the retained operations reach none of the
/// ids, and the live layers lead to none: the answers differ at most in the number of dropped ids, and
/// the bases are the same.
pub fn sweeps_meet()
    ensures { SweepsMeet }
{}
