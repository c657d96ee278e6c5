// Numbers with 16 fraction bits.
ghost use Rattle.std.specs.Prelude.{◌≡◌, ◌↔◌, neg_ℤ, pos, ◌≤ℤ◌, IfOk, IsErrOf};
ghost use Rattle.fix_math.specs.Numbers.{IsInRange};
ghost use Rattle.fix_math.specs.Outcomes.{in_range};

use std::marker::Model;

/// A number with 16 fraction bits, kept as its raw whole number: 1 unit is 65536 raw.
/// The raw number is below 2^47 in size, so a value lies between -2^31 and 2^31 units.
/// Contracts see a `Fix` as its raw number.
#[derive(Clone, Copy, Debug, PartialEq, Eq)]
pub struct Fix(pub i64);

impl Model for Fix {
    ghost use Rattle.std.specs.Prelude.{ℤ};
    ghost use Rattle.fix_math.specs.Numbers.{IsInRange};

    ghost Value = { ℤ };

    ghost view = { λ number. number.0 };

    ghost invariant = { λ number. IsInRange number.0 };

    ghost inverse = { λ raw. record { 0 = raw } };
}

/// A vector of three numbers: a point, a direction, or sizes along the axes.
#[derive(Clone, Copy, Debug, PartialEq, Eq)]
pub struct V3 {
    pub x: Fix,
    pub y: Fix,
    pub z: Fix,
}

/// Why a calculation has no value.
#[derive(Clone, Copy, Debug, PartialEq, Eq)]
pub enum NumFault {
    /// A divisor is 0.
    ZeroDivisor = 1,
    /// The result has a raw number of 2^47 or more in size.
    Range = 2,
}

impl Fix {
    /// The value with this raw number, where there is one.
    pub fn from_raw(raw: i128) -> Result<Fix, NumFault>
        ensures value { result ≡ in_range raw }
        ensures exact { IfOk result (λ value. value ≡ raw) }
        ensures range { IsErrOf result NumFault.Range ↔ ¬ IsInRange raw }
        ensures divisor { IsErrOf result NumFault.ZeroDivisor → ⊥ }
    {
        if raw.unsigned_abs() < 1 << 47 {
            Ok(Fix(raw as i64))
        } else {
            Err(NumFault::Range)
        }
    }

    /// The value with the other sign.
    #[inline]
    pub fn negated(self) -> Fix
        ensures { result ≡ neg_ℤ self }
    {
        Fix(-self.0)
    }

    /// The value with this raw number, which is known to be in range.
    #[inline]
    pub fn from_known(raw: i128) -> Fix
        requires { IsInRange raw }
        ensures { result ≡ raw }
    {
        Fix(raw as i64)
    }

    /// The raw number, in units of 1/65536.
    #[inline]
    pub fn raw(self) -> i64
        ensures value { result ≡ self }
        ensures small { IsInRange result }
    {
        self.0
    }

    /// The raw number in 128 bits, for products and sums that may be larger than any value.
    #[inline]
    pub fn wide(self) -> i128
        ensures value { result ≡ self }
        ensures small { IsInRange result }
    {
        self.0 as i128
    }
}
