// From a scene to its picture.
ghost use Rattle.std.specs.Prelude.{◌≡◌, ◌≤◌, ◌^◌, [], length, sum, IfOk};
ghost use Rattle.image_out.specs.Sizes.{picture_length};
ghost use Rattle.scene_model.specs.Valid.{Valid};
ghost use Rattle.options.specs.Plans.{IsPlan};
ghost use Rattle.frame_trace.specs.Pictures.{IsPicture};
ghost use Rattle.povfix.specs.Frames.{format_of, sight_of, smoothing};

use csg_hits::Built;
use frame_trace::{Antialias, Format, Rectangle, Tracing, work_for};
use options::Plan;
use scene_model::Scene;
use slab_tree::SlabWorld;
use std::alloc::{AllocError, Global};
use std::thread::Threads;

/// How the edges of a plan's pictures are smoothed.
fn smoothing(plan: &Plan) -> Option<Antialias>
    ensures { result ≡ smoothing plan.now.antialias }
{
    match plan.antialias {
        Some(antialias) => Some(Antialias {
            threshold: antialias.threshold,
            depth: antialias.depth,
        }),
        None => None,
    }
}

/// The format of a plan's pictures.
fn format(plan: &Plan) -> Format
    ensures { result ≡ format_of plan.now.width plan.now.height plan.now.bits plan.now.antialias }
{
    Format {
        width: plan.width,
        height: plan.height,
        bits: plan.bits,
        antialias: smoothing(plan),
    }
}

/// How many bytes a plan's picture has.
fn picture_length(plan: &Plan) -> usize
    requires plan { IsPlan plan.now }
    ensures value { result ≡ picture_length plan.now.width plan.now.height plan.now.bits }
    ensures few { result ≤ 2 ^ 27 }
{
    plan.bits as usize / 8 * 3 * plan.width as usize * plan.height as usize
}

/// The picture of a scene: its samples, by rows from the top. All memory is taken before a ray is traced.
pub fn draw(
    rt: &(impl Threads + Sync),
    alloc: Global,
    plan: &Plan,
    scene: Scene,
) -> Result<Vec<u8>, AllocError>
    requires plan { IsPlan plan.now }
    requires valid { Valid scene }
    requires flat { scene.sheets.items ≡ [] }
    ensures shown { IfOk result (λ picture. IsPicture (sight_of scene (format_of plan.now.width plan.now.height plan.now.bits plan.now.antialias)) picture.items) }
    ensures size { IfOk result (λ picture. length picture.items ≡ picture_length plan.now.width plan.now.height plan.now.bits) }
    ensures few { IfOk result (λ picture. length picture.items ≤ 2 ^ 27) }
{
    let world = SlabWorld::build(rt, alloc, Built::new(alloc, &scene)?)?;
    let mut work = work_for(&world, alloc, plan.width)?;
    let mut picture = Vec::with_capacity(alloc, picture_length(plan))?;
    let tracing = Tracing {
        world,
        scene,
        format: format(plan),
    };
    let whole = Rectangle {
        x: 0,
        y: 0,
        width: plan.width,
        height: plan.height,
    };
    frame_trace::draw(&tracing, &mut work, &whole, &mut picture);
    Ok(picture)
}

/// The sum of the bytes of a picture.
pub fn total(picture: &[u8]) -> u64
    requires few { length picture.now ≤ 2 ^ 27 }
    ensures value { result ≡ sum picture.now }
    ensures small { result ≤ 2 ^ 35 }
{
    let mut total = 0;
    for byte in picture {
        total += u64::from(*byte);
    }
    total
}
