// The shares that components have of their vector's length. A share is guessed by a reciprocal of
// the length, and the guess is taken where a product shows that it is the rounded quotient.
ghost use Rattle.std.specs.Prelude.{◌≡◌, ◌<◌, ◌≤◌, ◌*◌, ◌^◌, true, pos, ◌+ℤ◌, ◌-ℤ◌, ◌*ℤ◌, ◌<ℤ◌, ◌≤ℤ◌, neg_ℤ, unsigned_abs};
ghost use Rattle.fix_math.specs.Numbers.{rnd};

use crate::arithmetic::rounded;
use crate::fix::Fix;
use crate::root_guess::RootGuess;

/// A vector's length with 16 fraction bits more than a raw number has, and what a guess of shares
/// asks of it.
#[derive(Clone, Copy)]
pub struct Length {
    length: u64,
    /// About 2^(bits + 33) over the length.
    reciprocal: u64,
    bits: u32,
    ghost whole: { 0 < length },
    ghost few: { bits ≤ 62 },
}

impl Length {
    pub fn new(length: RootGuess) -> Length
        requires { 0 < length.root }
        ensures { result.length ≡ length.root }
    {
        Length {
            length: length.root,
            reciprocal: length.reciprocal,
            bits: 62u32.saturating_sub(length.pairs),
        }
    }

    /// A component's share of 1 unit.
    pub fn share(&self, component: Fix) -> Fix
        requires within { unsigned_abs component * 2 ^ 16 ≤ self.now.length }
        ensures value { result ≡ rnd (component *ℤ pos (2 ^ 32)) (pos self.now.length) }
        ensures small { unsigned_abs result ≤ 65536 }
        ensures long { self.now.length ≤ unsigned_abs component * 2 ^ 17 → 32768 ≤ unsigned_abs result }
    {
        let guess = self.guess(component);
        if is_rounded(component, self.length, guess) {
            guess
        } else {
            self.quotient(component)
        }
    }

    // The share, mostly: nothing is promised of it but that it is a share.
    #[inline]
    fn guess(&self, component: Fix) -> Fix
        ensures { unsigned_abs result ≤ 65536 }
    {
        let twice = (component.wide() * self.reciprocal as i128) >> self.bits;
        Fix::from_known((twice.wrapping_add(1) >> 1).clamp(-65536, 65536))
    }

    #[inline(never)]
    fn quotient(&self, component: Fix) -> Fix
        requires within { unsigned_abs component * 2 ^ 16 ≤ self.now.length }
        ensures value { result ≡ rnd (component *ℤ pos (2 ^ 32)) (pos self.now.length) }
        ensures small { unsigned_abs result ≤ 65536 }
        ensures long { self.now.length ≤ unsigned_abs component * 2 ^ 17 → 32768 ≤ unsigned_abs result }
    {
        Fix::from_known(rounded(component.wide() << 32, self.length as i128))
    }
}

// Whether a number is a component's rounded share of a length: twice what is left of the component
// lies within the length.
#[inline]
fn is_rounded(component: Fix, length: u64, share: Fix) -> bool
    requires share_small { unsigned_abs share ≤ 65536 }
    requires whole { 0 < length }
    ensures { result ≡ true → share ≡ rnd (component *ℤ pos (2 ^ 32)) (pos length) }
{
    let left = difference(raised(component), multiple(share, length));
    is_rest(left, length as i128)
}

#[inline]
fn raised(component: Fix) -> i128
    ensures value { result ≡ component *ℤ pos (2 ^ 32) }
    ensures small { unsigned_abs result ≤ 2 ^ 79 }
{
    component.wide() << 32
}

#[inline]
fn multiple(share: Fix, length: u64) -> i128
    requires { unsigned_abs share ≤ 65536 }
    ensures value { result ≡ share *ℤ pos length }
    ensures small { unsigned_abs result ≤ 2 ^ 80 }
{
    share.wide() * length as i128
}

#[inline]
fn difference(dividend: i128, multiple: i128) -> i128
    requires dividend_small { unsigned_abs dividend ≤ 2 ^ 79 }
    requires multiple_small { unsigned_abs multiple ≤ 2 ^ 80 }
    ensures value { result ≡ dividend -ℤ multiple }
    ensures small { unsigned_abs result ≤ 2 ^ 81 }
{
    dividend - multiple
}

#[inline]
fn is_rest(left: i128, length: i128) -> bool
    requires left_small { unsigned_abs left ≤ 2 ^ 81 }
    requires length_small { unsigned_abs length ≤ 2 ^ 64 }
    ensures least { result ≡ true → neg_ℤ length ≤ℤ (left +ℤ left) }
    ensures most { result ≡ true → (left +ℤ left) <ℤ length }
{
    let twice = left + left;
    -length <= twice && twice < length
}
