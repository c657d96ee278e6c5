// Counts of faults.
ghost use Rattle.std.specs.Prelude.{◌≡◌, ◌+◌, ◌-◌, ◌^◌, ◌≤◌, min};

/// Counts one more fault. A counter stays at its last value.
pub(crate) fn raise(counter: &mut u64)
    ensures risen { counter.new ≡ min (counter.old + 1) (2 ^ 64 - 1) }
    ensures later { counter.old ≤ counter.new }
{
    *counter = counter.saturating_add(1);
}
