// How a ray's numbers are counted.
ghost use Rattle.std.specs.Prelude.{◌≡◌, ◌≤◌, ◌^◌};
ghost use Rattle.box_probe.specs.Probes.{fine};

/// A number of a ray, counted in 2^-15.
#[inline(always)]
pub fn fine(t: u64) -> i64
    requires { t ≤ 2 ^ 31 }
    ensures { result ≡ fine t }
{
    (t << 15) as i64
}
