// Trees of boxes, and lists of the same solids.
use crate::asked::{Seen, Way, first_other, hits, ray_of, tree_of};
use std::alloc::{AllocError, Global};
use std::thread::Threads;
use written_leaves::Written;
use written_leaves::Written::{Ball, Block, Half};
use written_scenes::{cloud, generated, scene, united};

/// The ways from a point to 64 places of a plane.
fn ways(alloc: Global, from: [i32; 3]) -> Result<Vec<Way>, AllocError> {
    let mut ways = Vec::new(alloc);
    for i in 0..64u32 {
        let x = (i % 8) as i32;
        let z = (i / 8) as i32;
        ways.push((from, [x * 65536, 0, z * 65536]))?;
    }
    Ok(ways)
}

fn first_hits(
    rt: &(impl Threads + Sync),
    alloc: Global,
    solids: &[Written],
    way: Way,
) -> Result<Vec<Seen>, AllocError> {
    let world = tree_of(rt, alloc, &scene(alloc, solids)?)?;
    hits(alloc, &world, &ray_of(way))
}

#[test]
fn rows_of_balls_are_hit_in_a_tree_as_in_a_list(rt: HostRuntime) -> Result<(), AllocError> {
    let alloc = rt.alloc();
    let scene = scene(alloc, &generated(alloc, 200)?)?;
    for from in [
        [0, 393216, -917504],
        [-3_000_000, 10_000, 200_000],
        [1_500_000, -40_000, 1_100_000],
        [131072, 0, 131072],
    ] {
        let (other, met) = first_other(&rt, alloc, &scene, &ways(alloc, from)?)?;
        assert!(rt; other.is_none(), "ray {other:?} from {from:?}");
        assert!(rt; met > 64, "{met} surfaces");
    }
    Ok(())
}

#[test]
fn strewn_balls_are_hit_in_a_tree_as_in_a_list(rt: HostRuntime) -> Result<(), AllocError> {
    let alloc = rt.alloc();
    let scene = scene(alloc, &cloud(alloc, 300, 65536)?)?;
    for from in [[-400_000, 100_000, 800_000], [0, 700_000, 1_400_000]] {
        let (other, met) = first_other(&rt, alloc, &scene, &ways(alloc, from)?)?;
        assert!(rt; other.is_none(), "ray {other:?} from {from:?}");
        assert!(rt; met > 64, "{met} surfaces");
    }
    Ok(())
}

#[test]
fn a_union_of_a_thousand_balls_is_hit_in_a_tree_as_in_a_list(
    rt: HostRuntime,
) -> Result<(), AllocError> {
    let alloc = rt.alloc();
    let scene = united(alloc, &cloud(alloc, 1000, 65536)?)?;
    for from in [[-400_000, 100_000, 800_000], [0, 700_000, 1_400_000]] {
        let (other, met) = first_other(&rt, alloc, &scene, &ways(alloc, from)?)?;
        assert!(rt; other.is_none(), "ray {other:?} from {from:?}");
        assert!(rt; met > 128, "{met} surfaces");
    }
    Ok(())
}

#[test]
fn of_objects_in_one_place_the_first_is_hit(rt: HostRuntime) -> Result<(), AllocError> {
    let ball = Ball([0, 0, 262144], 65536);
    let far = Ball([0, 0, 655360], 65536);
    let block = Block([-65536, -65536, 196608], [131072, 131072, 65536]);
    let solids = [far, ball, block, ball, ball, ball, ball, block, ball];
    let found = first_hits(&rt, rt.alloc(), &solids, ([0, 0, 0], [0, 0, 65536]))?;
    assert_eq!(rt; found.get(0).copied(), Some((196608, 1, 1, 0, true)));
    assert_eq!(rt; found.get(1).copied(), Some((262145, 2, 2, 5, false)));
    assert_eq!(rt; found.get(2).copied(), Some((327681, 1, 1, 0, false)));
    assert_eq!(rt; found.get(3).copied(), Some((589824, 0, 0, 0, true)));
    Ok(())
}

#[test]
fn what_has_no_bound_is_hit_too(rt: HostRuntime) -> Result<(), AllocError> {
    let alloc = rt.alloc();
    let plane = Half([0, 0, -65536], -327680);
    let ball = Ball([0, 0, 655360], 65536);
    let found = first_hits(&rt, alloc, &[ball, plane], ([0, 0, 0], [0, 0, 65536]))?;
    assert_eq!(rt; found.get(0).copied(), Some((327680, 1, 1, 0, true)));
    assert_eq!(rt; found.get(1).copied(), Some((589824, 0, 0, 0, true)));
    let alone = first_hits(&rt, alloc, &[plane], ([0, 0, 0], [0, 0, 65536]))?;
    assert_eq!(rt; alone.len(), 1);
    let nothing = first_hits(&rt, alloc, &[], ([0, 0, 0], [0, 0, 65536]))?;
    assert!(rt; nothing.is_empty());
    Ok(())
}
