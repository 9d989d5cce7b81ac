//! How much room is taken at once.

/// The sum of what is counted of each item, as far as a number holds it; takes no memory.
pub fn total<T, F: Fn(&T) -> usize>(items: &[T], count: F) -> usize
    requires { F.IsAlwaysCallable count }
{
    let mut sum: usize = 0;
    'items: for item in items {
        sum = sum.saturating_add(count(item));
    }
    sum
}
