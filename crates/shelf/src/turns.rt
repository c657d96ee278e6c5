// Which calls of a shelf in memory fail.
ghost use Rattle.std.specs.Prelude.{◌≡◌, ◌≤◌, ◌-◌, ◌↔◌, ◌⊎◌, None, Some, IsTrue, option_map, if◌then◌else◌};

use crate::count::raise;

/// The calls that are to fail, and how many have failed.
#[derive(Clone, Copy, Debug)]
pub(crate) struct Turns {
    /// The call of this number from now on fails: 1 is the next one, and 0 none.
    pub(crate) countdown: u64,
    /// After so many changes every call fails.
    pub(crate) changes_left: Option<u64>,
    pub(crate) failures: u64,
}

impl Turns {
    ghost use Rattle.shelf.specs.Turns.{TakesTurn};

    /// No call is to fail.
    pub(crate) fn new(failures: u64) -> Turns
        ensures countdown { result.countdown ≡ 0 }
        ensures changes_left { result.changes_left ≡ None }
        ensures failures { result.failures ≡ failures }
    {
        Turns {
            countdown: 0,
            changes_left: None,
            failures,
        }
    }

    /// Counts a call, and says whether it fails.
    pub(crate) fn take(&mut self, is_change: bool) -> bool
        ensures turn { TakesTurn is_change self.old self.new (IsTrue result) }
        ensures later { self.old.failures ≤ self.new.failures }
    {
        let due = is_due(self.countdown, self.changes_left);
        self.countdown = self.countdown.saturating_sub(1);
        self.changes_left = after(is_change, self.changes_left);
        if due {
            raise(&mut self.failures);
        }
        due
    }
}

fn is_due(countdown: u64, changes_left: Option<u64>) -> bool
    ensures { IsTrue result ↔ ((countdown ≡ 1) ⊎ (changes_left ≡ Some 0)) }
{
    countdown == 1 || changes_left == Some(0)
}

/// The changes that are let through after this call.
fn after(is_change: bool, changes_left: Option<u64>) -> Option<u64>
    ensures { result ≡ (if is_change then option_map (λ n. n - 1) changes_left else changes_left) }
{
    match changes_left {
        Some(count) => {
            if is_change {
                Some(count.saturating_sub(1))
            } else {
                Some(count)
            }
        }
        None => None,
    }
}
