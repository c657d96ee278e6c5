// The frames of a run. (Reference manual, animation options)
ghost use Rattle.std.specs.Prelude.{◌≡◌, ◌≤◌, ◌<◌, ◌+◌, ◌-◌, ◌^◌, unsigned_abs, ◌++◌, length, replicate, IfOk, OnOk, pos, ◌+ℤ◌, ◌-ℤ◌, ◌*ℤ◌, if◌then◌else◌};
ghost use Rattle.std.specs.Fmt.{decimal};
ghost use Rattle.fix_math.specs.Numbers.{rnd, IsInRange};
ghost use Rattle.scene_expr.specs.Values.{AreWhole};
ghost use Rattle.options.specs.Plans.{IsPlan};
ghost use Rattle.options.specs.Frames.{IsFrame, clock_at, clock_of, settings_of, padded, picture_name};

use crate::append::{append, append_decimal};
use crate::draft::copied;
use crate::names::{extension, stem};
use crate::plan::Plan;
use fix_math::{Fix, Str, rounded};
use itoa::Buffer;
use scene_expr::Settings;
use std::alloc::{AllocError, Global};

/// How many steps there are between two frames, and one more where the film begins anew behind the later one.
fn steps(first: u32, last: u32, cyclic: bool) -> u32
    requires order { first ≤ last }
    requires most { last ≤ 999999 }
    ensures { result ≡ last - first + (if cyclic then 1 else 0) }
{
    if cyclic {
        last - first + 1
    } else {
        last - first
    }
}

/// The way from one clock to another, so many times.
fn way(initial: Fix, end: Fix, step: u32) -> i128
    requires begins { IsInRange initial }
    requires ends { IsInRange end }
    requires most { step ≤ 1000000 }
    ensures { result ≡ (end -ℤ initial) *ℤ pos step }
{
    let Fix(from) = initial;
    let Fix(to) = end;
    (i128::from(to) - i128::from(from)) * i128::from(step)
}

/// How far the clock has gone after some of these steps.
#[tactic(auto, using(crate::proofs::Clocks::way_small))]
fn part(initial: Fix, end: Fix, step: u32, steps: u32) -> i64
    requires begins { IsInRange initial }
    requires ends { IsInRange end }
    requires some { 0 < steps }
    requires within { step ≤ steps }
    requires most { steps ≤ 1000000 }
    ensures value { result ≡ rnd ((end -ℤ initial) *ℤ pos step) (pos steps) }
    ensures small { unsigned_abs result ≤ 2 ^ 48 }
{
    rounded(way(initial, end, step), i128::from(steps)) as i64
}

/// The clock after some of these steps.
fn clock_between(initial: Fix, end: Fix, step: u32, steps: u32) -> Fix
    requires begins { IsInRange initial }
    requires ends { IsInRange end }
    requires within { step ≤ steps }
    requires most { steps ≤ 1000000 }
    ensures { result ≡ clock_at initial end step steps }
{
    if steps == 0 {
        return initial;
    }
    let Fix(from) = initial;
    Fix(from + part(initial, end, step, steps))
}

pub(crate) fn clock(p: &Plan, frame: u32) -> Fix
    requires plan { IsPlan p.now }
    requires frame { IsFrame p.now frame }
    ensures { result ≡ clock_of p.now frame }
{
    if p.animated {
        clock_between(
            p.initial_clock,
            p.final_clock,
            frame - p.first,
            steps(p.first, p.last, p.cyclic),
        )
    } else {
        p.clock
    }
}

/// What a frame from `from` to `to` tells the expressions of its scene.
pub fn settings(p: &Plan, frame: u32) -> Settings
    requires plan { IsPlan p.now }
    requires frame { IsFrame p.now frame }
    ensures value { result ≡ settings_of p.now frame }
    ensures whole { AreWhole result }
{
    Settings {
        clock: clock(p, frame),
        initial_clock: p.initial_clock,
        final_clock: p.final_clock,
        frame_number: frame,
        initial_frame: p.first,
        final_frame: p.last,
        image_width: p.width,
        image_height: p.height,
    }
}

/// How many decimal digits a number has.
fn digits(number: u32) -> usize
    ensures { result ≡ length (decimal number) }
{
    let mut buffer = Buffer::new();
    buffer.format(number).len()
}

/// Appends a frame's number with as many digits as the last one's.
fn append_padded(out: &mut Vec<u8>, last: u32, frame: u32) -> Result<(), AllocError>
    ensures { OnOk result (out.new.items ≡ out.old.items ++ padded last frame) }
{
    let zeros = digits(last).saturating_sub(digits(frame));
    for _ in 0..zeros {
        out.push(b'0')?;
    }
    append_decimal(out, frame)?;
    Ok(())
}

/// The name of the picture of a frame from `from` to `to`. In an animation the frame's number stands before the
/// extension, with zeros up to as many digits as the last frame's number has.
pub fn file_name(alloc: Global, p: &Plan, frame: u32) -> Result<Str, AllocError>
    requires plan { IsPlan p.now }
    requires frame { IsFrame p.now frame }
    ensures { IfOk result (λ name. name ≡ picture_name p.now frame) }
{
    if !p.animated {
        return copied(alloc, p.output.bytes());
    }
    let mut name = stem(p.output.bytes()).to_vec(alloc)?;
    append_padded(&mut name, p.last, frame)?;
    append(&mut name, extension(p.output.bytes()))?;
    Ok(Str::new(name))
}
