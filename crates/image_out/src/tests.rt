// Files by hand from the formats' definitions, and packets read again.
ghost use Rattle.std.specs.Prelude.{◌≤◌, length};

use crate::{Picture, RleFault, Sort, put, read_rle, room};
use std::alloc::{AllocError, Global};
use std::test::Fail;

/// The file of a picture whose sizes fit its bytes; nothing where they don't.
fn file(alloc: Global, sort: Sort, p: &Picture) -> Result<Vec<u8>, AllocError> {
    let is_side = |n: u32| 1 <= n && n <= 8192;
    let has_depth = p.bits == 8 || p.bits == 16 && sort == Sort::Ppm;
    if !is_side(p.width) || !is_side(p.height) || !has_depth {
        return Ok(Vec::new(alloc));
    }
    let room = room(sort, p.width, p.height, p.bits);
    let mut out = Vec::with_capacity(alloc, room as usize)?;
    if p.bytes.len() == (p.bits / 8 * 3) as usize * p.width as usize * p.height as usize {
        put(sort, p, &mut out);
    }
    Ok(out)
}

/// Red is full and green half, so that each order of the samples shows.
const AMBER: [u8; 3] = [255, 128, 0];

#[test]
fn small_files(rt: HostRuntime) -> Result<(), Fail> {
    let two_rows = [1, 2, 3, 4, 5, 6, 1, 2, 3, 1, 2, 3];
    let rows: [(Sort, u32, u32, u32, &[u8], &[u8]); 6] = [
        (Sort::Ppm, 1, 1, 8, &AMBER, b"P6\n1 1\n255\n\xff\x80\x00"),
        (
            Sort::Ppm,
            1,
            1,
            16,
            b"\xff\xff\x80\x00\x00\x00",
            b"P6\n1 1\n65535\n\xff\xff\x80\x00\x00\x00",
        ),
        (
            Sort::Ppm,
            2,
            2,
            8,
            &two_rows,
            b"P6\n2 2\n255\n\x01\x02\x03\x04\x05\x06\x01\x02\x03\x01\x02\x03",
        ),
        (
            Sort::Targa,
            1,
            1,
            8,
            &AMBER,
            &[
                0, 0, 2, 0, 0, 0, 0, 0, 0, 0, 0, 0, 1, 0, 1, 0, 24, 32, 0, 128, 255,
            ],
        ),
        (
            Sort::Targa,
            2,
            2,
            8,
            &two_rows,
            &[
                0, 0, 2, 0, 0, 0, 0, 0, 0, 0, 0, 0, 2, 0, 2, 0, 24, 32, 3, 2, 1, 6, 5, 4, 3, 2, 1,
                3, 2, 1,
            ],
        ),
        (
            Sort::TargaRle,
            2,
            2,
            8,
            &two_rows,
            &[
                0, 0, 10, 0, 0, 0, 0, 0, 0, 0, 0, 0, 2, 0, 2, 0, 24, 32, 1, 3, 2, 1, 6, 5, 4, 129,
                3, 2, 1,
            ],
        ),
    ];
    for (sort, width, height, bits, bytes, want) in rows {
        let p = Picture {
            width,
            height,
            bits,
            bytes,
        };
        assert_eq!(rt;
            file(rt.alloc(), sort, &p)?.as_slice(),
            want,
            "{sort:?} {width} {height} {bits}"
        );
    }
    Ok(())
}

/// The packets of one row of one colour.
const ONE_COLOUR: [(u32, &[u8]); 3] = [
    (1, &[0, 0, 128, 255]),
    (128, &[255, 0, 128, 255]),
    (129, &[255, 0, 128, 255, 0, 0, 128, 255]),
];

#[test]
fn rows_of_one_colour(rt: HostRuntime) -> Result<(), Fail> {
    for (width, packets) in ONE_COLOUR {
        let mut bytes = Vec::new(rt.alloc());
        for _pixel in 0..width {
            bytes.extend_from_slice(&AMBER)?;
        }
        let p = Picture {
            width,
            height: 1,
            bits: 8,
            bytes: bytes.as_slice(),
        };
        let low = (width % 256) as u8;
        let mut want = Vec::from_slice(
            rt.alloc(),
            &[0, 0, 10, 0, 0, 0, 0, 0, 0, 0, 0, 0, low, 0, 1, 0, 24, 32],
        )?;
        want.extend_from_slice(packets)?;
        assert_eq!(rt;
            file(rt.alloc(), Sort::TargaRle, &p)?.as_slice(),
            want.as_slice(),
            "{width}"
        );
    }
    Ok(())
}

/// Reads packets again, row by row, into samples red, green, blue. Nothing where they go wrong.
fn decoded(alloc: Global, packets: &[u8], width: u16) -> Result<Vec<u8>, AllocError> {
    let mut out = Vec::new(alloc);
    let mut rest = packets;
    let mut in_row = 0usize;
    while let [head, body @ ..] = rest {
        let count = (*head % 128) as usize + 1;
        let stored = if *head < 128 { count } else { 1 };
        in_row += count;
        if in_row > width as usize || body.len() < 3 * stored {
            return Ok(Vec::new(alloc));
        }
        if in_row == width as usize {
            in_row = 0;
        }
        for i in 0..count {
            let at = if stored == 1 { 0 } else { 3 * i };
            if let [blue, green, red, ..] = body.split_at(at.min(body.len())).1 {
                out.extend_from_slice(&[*red, *green, *blue])?;
            }
        }
        rest = body.split_at(3 * stored).1;
    }
    Ok(out)
}

/// Each bit of a mix says whether a pixel differs from the one before it.
#[test]
fn packets_are_read_again(rt: HostRuntime) -> Result<(), Fail> {
    let widths: [u16; 6] = [1, 2, 127, 128, 129, 257];
    for width in widths {
        for mix in 0..64u32 {
            let mut bytes = Vec::new(rt.alloc());
            let mut pixel = [0u8; 3];
            for i in 0..2 * width as u32 {
                if mix >> (i % 6) & 1 == 1 {
                    let at = (i % 3) as usize;
                    pixel[at] = pixel[at].wrapping_add(1);
                }
                bytes.extend_from_slice(&pixel)?;
            }
            let p = Picture {
                width: width as u32,
                height: 2,
                bits: 8,
                bytes: bytes.as_slice(),
            };
            let written = file(rt.alloc(), Sort::TargaRle, &p)?;
            let packets = written.as_slice().split_at(18.min(written.len())).1;
            let again = decoded(rt.alloc(), packets, width)?;
            assert_eq!(rt; again.as_slice(), bytes.as_slice(), "{width} {mix}");
        }
    }
    Ok(())
}

#[test]
fn packets_that_are_read(rt: HostRuntime) -> Result<(), Fail> {
    for (width, packets) in ONE_COLOUR {
        let mut want = Vec::new(rt.alloc());
        for _pixel in 0..width {
            want.extend_from_slice(&[0, 128, 255])?;
        }
        let read = read_rle(rt.alloc(), packets, width, 1)
            .ok()
            .ok_or("refused")?;
        assert_eq!(rt; read.as_slice(), want.as_slice(), "{width}");
    }
    let rows: [(u32, u32, &[u8], &[u8]); 3] = [
        (
            2,
            2,
            &[1, 3, 2, 1, 6, 5, 4, 129, 3, 2, 1],
            &[3, 2, 1, 6, 5, 4, 3, 2, 1, 3, 2, 1],
        ),
        (
            3,
            1,
            &[128, 1, 2, 3, 1, 4, 5, 6, 7, 8, 9],
            &[1, 2, 3, 4, 5, 6, 7, 8, 9],
        ),
        (0, 3, &[], &[]),
    ];
    for (width, height, packets, want) in rows {
        let read = read_rle(rt.alloc(), packets, width, height)
            .ok()
            .ok_or("refused")?;
        assert_eq!(rt; read.as_slice(), want, "{width} {height}");
    }
    Ok(())
}

#[test]
fn faults_of_packets(rt: HostRuntime) -> Result<(), Fail> {
    let rows: [(u32, u32, &[u8], RleFault); 10] = [
        (1, 2, &[0x81, 0, 0, 0], RleFault::PastRow),
        (1, 1, &[0, 0], RleFault::Short),
        (1, 1, &[], RleFault::Short),
        (1, 2, &[0, 1, 2, 3], RleFault::Short),
        (1, 2, &[0x81], RleFault::PastRow),
        (2, 1, &[0x81, 0, 0], RleFault::Short),
        (3, 1, &[0, 1, 2, 3, 2, 4, 5], RleFault::PastRow),
        (1, 1, &[0, 1, 2, 3, 9], RleFault::Long),
        (1, 0, &[0], RleFault::Long),
        (0, 1, &[0], RleFault::Long),
    ];
    for (width, height, packets, want) in rows {
        let fault = read_rle(rt.alloc(), packets, width, height)
            .err()
            .ok_or("read")?;
        assert_eq!(rt; fault, want, "{width} {height} {packets:?}");
    }
    Ok(())
}
