// What is drawn of a stage.
ghost use Rattle.std.specs.Prelude.{◌≡◌, ◌≤◌, ◌*◌, ◌/◌, ◌⊎◌, IfSome};
ghost use Rattle.frame_trace.specs.Ready.{IsDeep};

use crate::stages::{Stage, scene};
use csg_hits::{Built, ListWorld};
use fix_math::Fix;
use frame_trace::{Antialias, Format, Rectangle, Tracing, draw, work_for};
use std::alloc::{AllocError, Global};

/// Pixels in a row, rows, whether a sample has two bytes, and the threshold and the depth of its smoothing.
pub type Shape = (u16, u16, bool, Option<(i32, u32)>);

fn bits(wide: bool) -> u32
    ensures { (result ≡ 8) ⊎ (result ≡ 16) }
{
    if wide { 16 } else { 8 }
}

fn smoothing(given: Option<(i32, u32)>) -> Option<Antialias>
    ensures { IfSome result IsDeep }
{
    match given {
        Some((threshold, depth)) => Some(Antialias {
            threshold: Fix(threshold as i64),
            depth: depth.clamp(1, 9),
        }),
        None => None,
    }
}

fn pixel_bytes(bits: u32) -> usize
    requires { (bits ≡ 8) ⊎ (bits ≡ 16) }
    ensures value { result ≡ 3 * (bits / 8) }
    ensures small { result ≤ 6 }
{
    3 * (bits as usize / 8)
}

/// The bytes of a rectangle: its left column, its upper row, its width and its height. An error, too, where it isn't in the picture.
pub fn part(
    alloc: Global,
    stage: &Stage,
    shape: Shape,
    place: [u16; 4],
) -> Result<Vec<u8>, AllocError> {
    let (width, height, wide, given) = shape;
    let [x, y, columns, rows] = place;
    if columns == 0
        || rows == 0
        || x as u32 + columns as u32 > width as u32
        || y as u32 + rows as u32 > height as u32
    {
        return Err(AllocError);
    }
    let scene = scene(alloc, stage)?;
    let world = ListWorld::new(Built::new(alloc, &scene)?);
    let mut work = work_for(&world, alloc, columns as u32)?;
    let format = Format {
        width: width as u32,
        height: height as u32,
        bits: bits(wide),
        antialias: smoothing(given),
    };
    let place = Rectangle {
        x: x as u32,
        y: y as u32,
        width: columns as u32,
        height: rows as u32,
    };
    let mut out = Vec::with_capacity(
        alloc,
        pixel_bytes(format.bits) * columns as usize * rows as usize,
    )?;
    let tracing = Tracing {
        world,
        scene,
        format,
    };
    draw(&tracing, &mut work, &place, &mut out);
    Ok(out)
}

/// Whether a rectangle has these bytes.
pub fn is_drawn(alloc: Global, stage: &Stage, shape: Shape, place: [u16; 4], bytes: &[u8]) -> bool {
    match part(alloc, stage, shape, place) {
        Ok(drawn) => drawn.as_slice() == bytes,
        Err(_) => false,
    }
}

/// Whether the whole picture has these bytes.
pub fn is_picture(alloc: Global, stage: &Stage, shape: Shape, bytes: &[u8]) -> bool {
    is_drawn(alloc, stage, shape, [0, 0, shape.0, shape.1], bytes)
}
