// The times.
use crate::rays::{COLUMNS, ROWS, ray_of};
use csg_hits::{Built, ListWorld, World};
use slab_tree::SlabWorld;
use std::alloc::Global;
use std::rt::CpuClock;
use std::thread::Threads;
use written_scenes::{cloud, scene};

/// Numbers of balls, and their radii in raw numbers: the more there are, the smaller.
const CLOUDS: [(u32, i32); 4] = [(16, 65536), (256, 26000), (4096, 10400), (65535, 4100)];

/// What came of some rays.
#[derive(Clone, Copy)]
struct Answers {
    rays: u64,
    hits: u64,
    /// Of the hits' numbers.
    sum: u64,
}

/// The rays of a picture's rows from one on and before another.
fn ask<W: World>(alloc: Global, world: &W, first: i32, last: i32) -> anyhow::Result<Answers> {
    let mut scratch = world.scratch(alloc)?;
    let mut rays: u64 = 0;
    let mut hits: u64 = 0;
    let mut sum: u64 = 0;
    for row in first..last {
        for column in 0..COLUMNS {
            rays = rays.wrapping_add(1);
            if let Some(hit) = world.nearest(&mut scratch, &ray_of(column, row), 0, false) {
                hits = hits.wrapping_add(1);
                sum = sum.wrapping_add(hit.t);
            }
        }
    }
    Ok(Answers { rays, hits, sum })
}

/// One line: the time of a ray, and how many of a thousand hit.
fn measure<W: World>(
    rt: &(impl Print + CpuClock),
    alloc: Global,
    name: &str,
    world: &W,
    first: i32,
    last: i32,
) -> anyhow::Result<()> {
    let start = rt.process_cpu_time()?;
    let Answers { rays, hits, sum } = ask(alloc, world, first, last)?;
    let end = rt.process_cpu_time()?;
    let nanos = end.as_nanos().wrapping_sub(start.as_nanos()) / (rays as u128).max(1);
    let share = hits.wrapping_mul(1000) / rays.max(1);
    println!(rt; "{name}: {nanos} ns a ray, {share} of 1000 hit (sum {sum})")?;
    Ok(())
}

/// Clouds of balls: how long the tree of their boxes takes to be made, and how long a ray takes in it and in a list.
pub fn all(rt: &(impl Threads + Sync + Print + CpuClock), alloc: Global) -> anyhow::Result<()> {
    for (count, radius) in CLOUDS {
        println!(rt; "{count} balls")?;
        let scene = scene(alloc, &cloud(alloc, count, radius)?)?;
        let built = Built::new(alloc, &scene)?;
        let start = rt.process_cpu_time()?;
        let tree = SlabWorld::build(rt, alloc, built)?;
        let end = rt.process_cpu_time()?;
        let micros = end.as_nanos().wrapping_sub(start.as_nanos()) / 1000;
        println!(rt; "building: {micros} microseconds")?;
        measure(rt, alloc, "tree", &tree, 0, ROWS)?;
        let list = ListWorld::new(Built::new(alloc, &scene)?);
        measure(rt, alloc, "list", &list, 59, 61)?;
    }
    Ok(())
}
