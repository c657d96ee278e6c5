// A root of which all digits are right mostly: nothing is promised of it, so its sums and products
// wrap.
ghost use Rattle.std.specs.Prelude.{◌<◌, ◌≤◌, ◌^◌};

/// A root, mostly, and what tells its reciprocal.
#[derive(Clone, Copy)]
pub struct RootGuess {
    /// The floor of the root, mostly.
    pub root: u64,
    /// About 2^(95 - pairs) over the root.
    pub reciprocal: u64,
    /// How many pairs of digits, each 0, the number begins with.
    pub pairs: u32,
    ghost few: { pairs ≤ 64 },
}

/// The root, mostly.
#[inline]
pub fn root_guess(n: u128) -> RootGuess {
    if n == 0 {
        return RootGuess {
            root: 0,
            reciprocal: 0,
            pairs: 64,
        };
    }
    let pairs = n.leading_zeros() / 2;
    let long = n << (2 * pairs);
    let share = reciprocal_root((long >> 64) as u64);
    let half = (long >> 96) as u64;
    let first = (half.wrapping_mul(share) >> 31) << 32;
    let second = corrected(long, first, share, 40, 56);
    let third = corrected(long, second, share, 8, 88);
    RootGuess {
        root: rounded_down(n, third >> pairs),
        reciprocal: share,
        pairs,
    }
}

// About 2^31 over the root of a share of 2^64, by two steps of Newton's from a table. The share's
// first two digits aren't both 0.
#[inline]
fn reciprocal_root(m: u64) -> u64
    requires { 2 ^ 62 ≤ m }
{
    let first = SHARES[(m >> 56) as usize - 64] as u64;
    let half = m >> 33;
    let left = (3u64 << 61).wrapping_sub(half.wrapping_mul(first.wrapping_mul(first)));
    let second = first.wrapping_mul(left >> 32) >> 14;
    let square = second.wrapping_mul(second) >> 32;
    let left = (3u64 << 61).wrapping_sub(half.wrapping_mul(square));
    second.wrapping_mul(left >> 31) >> 31
}

// A root with more right digits: what its square lacks is divided by twice the root, which is a
// product with the reciprocal.
#[inline]
fn corrected(n: u128, root: u64, share: u64, before: u32, after: u32) -> u64
    requires before { before < 128 }
    requires after { after < 128 }
{
    let square = root as u128 * root as u128;
    let lack = n.wrapping_sub(square).cast_signed() >> before;
    let step = (lack.wrapping_mul(share as i128) >> after).cast_unsigned();
    root.wrapping_add((step % (1 << 64)) as u64)
}

// The floor, from a number that differs from it by at most 1.
#[inline]
fn rounded_down(n: u128, root: u64) -> u64 {
    let square = root as u128 * root as u128;
    if square > n {
        root.wrapping_sub(1)
    } else if n.wrapping_sub(square) > 2 * root as u128 {
        root.wrapping_add(1)
    } else {
        root
    }
}

// About 2^15 over the root of a share of 1, by the share's first byte, from 64 on.
static SHARES: [u16; 192] = [
    65281, 64781, 64292, 63814, 63347, 62889, 62442, 62004, 61575, 61154, 60742, 60339, 59943,
    59555, 59175, 58801, 58435, 58075, 57722, 57376, 57035, 56700, 56372, 56049, 55731, 55419,
    55112, 54810, 54513, 54221, 53933, 53650, 53371, 53097, 52826, 52560, 52298, 52040, 51785,
    51535, 51288, 51044, 50804, 50567, 50333, 50103, 49876, 49652, 49430, 49212, 48997, 48784,
    48574, 48367, 48163, 47961, 47761, 47564, 47370, 47178, 46988, 46800, 46615, 46432, 46251,
    46072, 45895, 45720, 45547, 45376, 45207, 45040, 44875, 44711, 44550, 44390, 44232, 44075,
    43920, 43767, 43615, 43465, 43316, 43169, 43024, 42879, 42737, 42595, 42456, 42317, 42180,
    42044, 41910, 41776, 41644, 41514, 41384, 41256, 41129, 41003, 40878, 40754, 40631, 40510,
    40390, 40270, 40152, 40035, 39919, 39803, 39689, 39576, 39464, 39352, 39242, 39133, 39024,
    38916, 38810, 38704, 38599, 38494, 38391, 38289, 38187, 38086, 37986, 37887, 37788, 37690,
    37593, 37497, 37401, 37307, 37213, 37119, 37027, 36935, 36843, 36753, 36663, 36573, 36485,
    36397, 36309, 36222, 36136, 36051, 35966, 35882, 35798, 35715, 35632, 35550, 35469, 35388,
    35307, 35228, 35148, 35070, 34991, 34914, 34837, 34760, 34684, 34608, 34533, 34458, 34384,
    34310, 34237, 34164, 34092, 34020, 33949, 33878, 33807, 33737, 33668, 33599, 33530, 33461,
    33393, 33326, 33259, 33192, 33126, 33060, 32994, 32929, 32864, 32800,
];
