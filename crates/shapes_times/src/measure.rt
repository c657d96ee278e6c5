// The times.
use crate::rays::rays;
use crate::scenes::solids;
use shapes::{Path, Solid};
use std::rt::CpuClock;
use written_leaves::solid_of;

/// How often each ray is asked.
const TIMES: u32 = 20;

fn ask(solid: &Solid, paths: &[Path]) -> (u64, u64) {
    let mut hits: u64 = 0;
    let mut sum: u64 = 0;
    for _ in 0..TIMES {
        for path in paths {
            let found = solid.stretches(path);
            if found.one.from < found.one.end || found.two.from < found.two.end {
                hits = hits.wrapping_add(1);
            }
            sum = sum.wrapping_add(found.one.from).wrapping_add(found.one.end);
        }
    }
    (hits, sum)
}

/// One line: the time of a call in a tenth of a nanosecond, and how many of a thousand rays hit.
fn measure(rt: &HostRuntime, name: &str, solid: &Solid, paths: &[Path]) -> anyhow::Result<()> {
    let calls = (paths.len() as u64).wrapping_mul(TIMES as u64).max(1);
    let start = rt.process_cpu_time()?;
    let (hits, sum) = ask(solid, paths);
    let end = rt.process_cpu_time()?;
    let nanos = end.as_nanos().wrapping_sub(start.as_nanos());
    let tenths = nanos.wrapping_mul(10) / calls as u128;
    let share = hits.wrapping_mul(1000) / calls;
    println!(rt;
        "{name}: {}.{} ns, {share} of 1000 hit (sum {sum})",
        tenths / 10,
        tenths % 10
    )?;
    Ok(())
}

/// Each kind of solid along rays towards it, and along rays past it.
pub fn all(rt: &HostRuntime) -> anyhow::Result<()> {
    let towards = rays(rt.alloc(), 60, 0)?;
    let past = rays(rt.alloc(), 60, -1_000_000)?;
    for (name, written, by) in solids() {
        let Some(solid) = solid_of(&written, by) else {
            continue;
        };
        measure(rt, name, &solid, &towards)?;
        measure(rt, name, &solid, &past)?;
    }
    Ok(())
}
