//! The law of ordered plans: told one after another, their members are what a read shows.
ghost use Rattle.plan_order.specs.Alike.{OrderedWalksReadAlike};

/// Law: the walk of a plan that is in order shows what the plan shows, misses something where the plan
/// does, and stands at the same ids, each as often.
pub fn ordered_walks_read_alike()
    ensures { OrderedWalksReadAlike }
{}
