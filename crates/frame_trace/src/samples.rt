// The bytes of colours.
ghost use Rattle.std.specs.Prelude.{◌≡◌, ◌<◌, ◌≤◌, ◌^◌, ◌+◌, ◌-◌, ◌*◌, ◌/◌, ◌++◌, ◌⊎◌, pos, ◌*ℤ◌, unsigned_abs, vec_len, vec_capacity};
ghost use Rattle.byteorder.specs.Endian.{big_bytes};
ghost use Rattle.fix_math.specs.Numbers.{rnd};
ghost use Rattle.frame_trace.specs.Pictures.{sample, samples};
ghost use Rattle.scene_model.specs.Amounts.{IsAmount, AreAmounts};

use fix_math::Fix;
use scene_model::Rgb;

/// Appends the samples of a colour.
pub fn put(bits: u32, colour: &Rgb, out: &mut Vec<u8>)
    requires bits { (bits ≡ 8) ⊎ (bits ≡ 16) }
    requires amounts { AreAmounts 65536 colour.now }
    requires room { vec_len out.old + 3 * (bits / 8) ≤ vec_capacity out.old }
    ensures items { out.new.items ≡ out.old.items ++ samples bits colour.now }
    ensures length { vec_len out.new ≡ vec_len out.old + 3 * (bits / 8) }
    ensures capacity { vec_capacity out.new ≡ vec_capacity out.old }
{
    put_sample(bits, colour[0], out);
    put_sample(bits, colour[1], out);
    put_sample(bits, colour[2], out);
}

/// Appends the sample of a channel.
#[inline]
fn put_sample(bits: u32, channel: Fix, out: &mut Vec<u8>)
    requires bits { (bits ≡ 8) ⊎ (bits ≡ 16) }
    requires amount { IsAmount 65536 channel }
    requires room { vec_len out.old + bits / 8 ≤ vec_capacity out.old }
    ensures items { out.new.items ≡ out.old.items ++ big_bytes (bits / 8) (sample bits channel) }
    ensures length { vec_len out.new ≡ vec_len out.old + bits / 8 }
    ensures capacity { vec_capacity out.new ≡ vec_capacity out.old }
{
    if bits == 8 {
        out.push_reserved(sample_of_8(channel));
    } else {
        let [high, low] = sample_of_16(channel).to_be_bytes();
        out.push_reserved(high);
        out.push_reserved(low);
    }
}

#[inline]
fn sample_of_8(channel: Fix) -> u8
    requires { IsAmount 65536 channel }
    ensures { result ≡ sample 8 channel }
{
    scaled(channel, 255) as u8
}

#[inline]
fn sample_of_16(channel: Fix) -> u16
    requires { IsAmount 65536 channel }
    ensures { result ≡ sample 16 channel }
{
    scaled(channel, 65535) as u16
}

/// A channel as a whole number up to a greatest one.
#[inline]
fn scaled(channel: Fix, greatest: u32) -> u64
    requires amount { IsAmount 65536 channel }
    requires few { greatest < 65536 }
    ensures value { result ≡ unsigned_abs (rnd (channel *ℤ pos greatest) (pos 65536)) }
    ensures small { result ≤ greatest }
{
    (channel.raw().unsigned_abs() * greatest as u64 + 32768) / 65536
}
