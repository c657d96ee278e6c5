//! A picture of 33 by 33 pixels: one whole block, and three that are cut.

use crate::pens::{NAME, commit_one, open_pen};
use shelf::MemShelf;
use state_file::Geometry;
use std::alloc::{AllocError, Global};
use std::test::Fail;

/// One pixel more than a block in each direction.
const CUT: Geometry = Geometry {
    width: 33,
    height: 33,
    bits: 8,
};

/// Its header and a key of two bytes, with all four blocks open.
const FRONT: &[u8] = b"\x01\x01\x02\0\0\0\x21\0\0\0\x21\0\0\0\x04\0\0\0ab\x01\x01\x01\x01";

/// The bytes of each block, and the byte that it is filled with.
const BLOCKS: [(usize, u8); 4] = [(3072, 5), (96, 6), (96, 7), (3, 8)];

/// The whole file.
fn whole(alloc: Global) -> Result<Vec<u8>, AllocError> {
    let mut bytes = Vec::from_slice(alloc, FRONT)?;
    for (size, byte) in BLOCKS {
        let block = vec![in alloc; byte; size]?;
        bytes.extend_from_slice(&block)?;
    }
    Ok(bytes)
}

/// The state file in which each block was committed, the last one first.
fn made(alloc: Global) -> Result<Option<MemShelf>, AllocError> {
    let Ok(pen) = open_pen(alloc, MemShelf::new(alloc), b"ab", CUT, false) else {
        return Ok(None);
    };
    let (pen, fourth) = commit_one(pen, CUT, 3, vec![in alloc; 8u8; 3]?);
    let (pen, third) = commit_one(pen, CUT, 2, vec![in alloc; 7u8; 96]?);
    let (pen, second) = commit_one(pen, CUT, 1, vec![in alloc; 6u8; 96]?);
    let (pen, first) = commit_one(pen, CUT, 0, vec![in alloc; 5u8; 3072]?);
    let (shelf, _picture) = pen.into_shelf();
    if first && second && third && fourth {
        Ok(Some(shelf))
    } else {
        Ok(None)
    }
}

#[test]
fn blocks_at_the_edges_are_cut(rt: HostRuntime) -> Result<(), Fail> {
    let Some(shelf) = made(rt.alloc())? else {
        panic!(rt; "a commit failed")
    };
    let bytes = whole(rt.alloc())?;
    assert!(rt; bytes.len() == 18 + 2 + 4 + 3267);
    assert!(rt; shelf.contents(NAME) == bytes.as_slice());
    Ok(())
}
