// A machine that has no memory left for a picture.
use crate::rig::{asked, shown};
use povfix::{MemTexts, Traced, run};
use shelf::{MemShelf, MemSink};
use std::alloc::{AllocError, Global};
use std::process::Abort;
use std::test::Fail;

const TEXT: &[u8] =
    b"#debug \"m\" sphere { <0,0,4>, 1 pigment { rgb <0,1,0> } finish { ambient 1 diffuse 0 } }";

const PIXEL: &[u8] = b"P6\n1 1\n255\n\0\xff\0";

/// The largest block that is asked for: half of the addresses that a program has.
const LARGEST: usize = 1 << 46;

/// The smallest one, a third of what a picture of 4096 by 4096 pixels needs.
const SMALLEST: usize = 1 << 24;

/// How often a block is asked for at most. A machine that gives 4 GiB at once gives 32,768 such blocks, one that gives
/// 16 GiB gives 8,192.
const MOST_BLOCKS: usize = 40_000;

/// Takes blocks, large ones first, until the machine refuses the smallest. Nothing is written to them, so that they
/// take up addresses and hardly any memory.
fn all_blocks(alloc: Global) -> Result<Vec<Vec<u8>>, AllocError> {
    let mut blocks = Vec::with_capacity(alloc, MOST_BLOCKS)?;
    let mut size = LARGEST;
    for _ in 0..MOST_BLOCKS {
        match Vec::with_capacity(alloc, size) {
            Ok(block) => blocks.push(block)?,
            Err(_) => size /= 2,
        }
        if size < SMALLEST {
            break;
        }
    }
    Ok(blocks)
}

/// With the blocks taken a small picture is still made, so what the large one lacks is the memory of its pixels. What
/// each scene says is told before.
#[test]
fn a_picture_without_memory_is_refused(rt: HostRuntime) -> Result<(), Fail> {
    let alloc = rt.alloc();
    let small = asked(alloc, &["a.pov", "+W1", "+H1"])?;
    let large = asked(alloc, &["a.pov", "+W4096", "+H4096"])?;
    let mut texts = MemTexts::new(alloc);
    texts.add(alloc, b"a.pov", TEXT)?;
    let mut told = MemSink::with_room(alloc, 100)?;
    let shelf = MemShelf::new(alloc);
    let blocks = all_blocks(alloc)?;
    let first = run(&rt, alloc, &small, &mut texts, shelf, &mut told);
    let done = shown(alloc, &first.fault)?;
    let outcome = run(&rt, alloc, &large, &mut texts, first.shelf, &mut told);
    drop(blocks);
    assert_eq!(&rt; done.as_str(), "done");
    assert_eq!(&rt; shown(alloc, &outcome.fault)?.as_str(), "no memory");
    assert_eq!(&rt; outcome.status, 9);
    assert_eq!(&rt; outcome.finished, 0);
    assert_eq!(&rt; outcome.traced.as_slice(), &[] as &[Traced]);
    assert_eq!(&rt; told.bytes(), b"mmno memory\n".as_slice());
    assert_eq!(&rt; outcome.shelf.contents(b"a.ppm"), PIXEL);
    Ok(())
}
