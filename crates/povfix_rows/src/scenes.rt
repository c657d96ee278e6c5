// Scene texts, with the picture that they mean or the refusal that they meet.
use crate::rig::{rendered, shown};
use std::alloc::{AllocError, Global};
use std::process::Abort;
use std::test::Fail;
use std::thread::Threads;

const WORDS: [&str; 3] = ["+Ia.pov", "+W1", "+H1"];

/// Texts and the one pixel of their picture.
const DRAWN: [(&[u8], [u8; 3]); 16] = [
    (b"", [0, 0, 0]),
    (b"background { color rgb <1,0.5,0> }", [255, 128, 0]),
    (b"background { rgb <0,0,1> }", [0, 0, 255]),
    (b"background{rgb<1,0,0>}background{rgb<0,1,0>}", [0, 255, 0]),
    (b"background {\r\n rgb <1,0,0>\r\n}\r\n", [255, 0, 0]),
    (b"\xef\xbb\xbfbackground { rgb <0,1,0> }", [0, 255, 0]),
    (b"background { rgb <-0,0,.5> }", [0, 0, 128]),
    (b"background { rgb <256,1.5,0> }", [255, 255, 0]),
    (b"background { rgb <0.1,0.2,0.3> }", [26, 51, 77]),
    (
        b"sphere { <0,0,4>, 1 pigment { rgb <0,1,0> } finish { ambient 1 diffuse 0 } }",
        [0, 255, 0],
    ),
    (
        b"sphere { <0,0,4>, 1 pigment { color rgb <1,0,0> } finish { ambient 1 diffuse 0 } } sphere { <0,0,4>, 1 pigment { rgb <0,0,1> } finish { ambient 1 diffuse 0 } }",
        [255, 0, 0],
    ),
    (
        b"sphere { <0,0,5>, 1 pigment { rgb <1,0,0> } finish { ambient 1 diffuse 0 } } sphere { <0,0,4>, 1 pigment { rgb <0,0,1> } finish { ambient 1 diffuse 0 } }",
        [0, 0, 255],
    ),
    (
        b"sphere { <0,0,-4>, 1 pigment { rgb <1,0,0> } finish { ambient 1 diffuse 0 } } background { rgb <0,1,0> }",
        [0, 255, 0],
    ),
    (
        b"sphere { <0,0,0>, 1 pigment { rgb <1,0,0> } finish { ambient 1 diffuse 0 } }",
        [255, 0, 0],
    ),
    (
        b"sphere { <0,0,4>, 0 pigment { rgb <1,0,0> } finish { ambient 1.0 diffuse 0.0 } }",
        [255, 0, 0],
    ),
    (
        b"sphere { <4096,-4096,4096>, 4096 pigment { rgb <1,0,0> } finish { ambient 1 diffuse 0 } }",
        [0, 0, 0],
    ),
];

/// Texts whose form is refused: the letter, the kind, and the place as text, offset and line.
const FORMS: [(&[u8], &str); 16] = [
    (b"x", "P2 0@0:1"),
    (b"\n\nx", "P2 0@2:3"),
    (b"\r\rx", "P2 0@2:1"),
    (b"\xef\xbb\xbf\nx", "P2 0@4:2"),
    (b"Background { rgb <1,1,1> }", "P2 0@0:1"),
    (b".", "P1 0@0:1"),
    (b"#", "D1 0@0:1"),
    (b"1", "P1 0@0:1"),
    (b"\"a\"", "P1 0@0:1"),
    (b"background", "P1 0@10:1"),
    (b"background ", "P1 0@10:1"),
    (b"background {", "P1 0@12:1"),
    (b"background { rgb <1,1,1> ", "P1 0@24:1"),
    (b"background {\n rgb <1,1,1>\n\n", "P1 0@25:2"),
    (b"background { rgb <1,1,1>, }", "P1 0@24:1"),
    (b"background { rgb <1,1,1> } }", "P1 0@27:1"),
];

/// Texts that are refused for a value, a byte or an object's form.
const VALUES: [(&[u8], &str); 32] = [
    (b"background { rgb <1,1,257> }", "P3 0@13:1"),
    (b"background { color rgb <1,1,257> }", "P3 0@13:1"),
    (b"background { rgb <-1,0,0> }", "P3 0@13:1"),
    (b"background { rgb <-0.00001,0,0> }", "P3 0@13:1"),
    (b"background { rgb <257,0,0> x", "P3 0@13:1"),
    (b"background { rgb <257,0,0 }", "P1 0@26:1"),
    (b"background { rgb <257,0,0> } $", "L1 0@29:1"),
    (b"x $", "L1 0@2:1"),
    (b"@", "L1 0@0:1"),
    (b"background { rgb <1,0,0> }\x1a", "L1 0@26:1"),
    (b"background { rgb <1,0,0> }\n\x80", "L1 0@27:2"),
    (b"\"a", "L3 0@0:1"),
    (b"a234567890123456789012345678901234567890", "P2 0@0:1"),
    (b"a2345678901234567890123456789012345678901", "L4 0@0:1"),
    (b"2147483647", "P1 0@0:1"),
    (b"2147483648", "L5 0@0:1"),
    (b" 1234567890123456789012345678901", "L5 0@1:1"),
    (b"sphere { <0,0,4> }", "P1 0@17:1"),
    (b"union { }", "P1 0@8:1"),
    (b"torus { 1, 0.2 }", "P2 0@0:1"),
    (b"sphere { <0,0,4> 1 pigment", "P1 0@26:1"),
    (
        b"sphere { <0,0,4097>, 1 pigment { rgb <1,0,0> } finish { ambient 1 diffuse 0 } }",
        "P3 0@9:1",
    ),
    (b"sphere { <0,0,4097>, 1 }", "P3 0@9:1"),
    (
        b"sphere { <0,0,4>, -1 pigment { rgb <1,0,0> } finish { ambient 1 diffuse 0 } }",
        "P3 0@18:1",
    ),
    (
        b"sphere { <0,0,4>, 4096.0001 pigment { rgb <1,0,0> } finish { ambient 1 diffuse 0 } }",
        "P3 0@18:1",
    ),
    (
        b"sphere { <0,0,4>, 1 pigment { rgb <0,1,0> } finish { ambient 1 diffuse 0 }\n",
        "P1 0@74:1",
    ),
    (b"sphere { <0,0,4096.00002>, 1 }", "P3 0@9:1"),
    (b"sphere { 0, 1 scale 0 }", "P4 0@20:1"),
    (b"global_settings { adc_bailout 2 }", "P3 0@30:1"),
    (b"light_source { 0, rgb 1 radius 91 }", "P3 0@31:1"),
    (
        b"difference { box { 0, 1 } triangle { 0, x, y } }",
        "P2 0@26:1",
    ),
    (b"background { rgb 1 } triangle { 0, x, y }", "P2 0@0:1"),
];

/// Each text means a picture of one pixel.
pub fn are_drawn(
    rt: &(impl Threads + Sync + Abort),
    alloc: Global,
    rows: &[(&[u8], [u8; 3])],
) -> Result<(), AllocError> {
    for (text, pixel) in rows {
        let left = rendered(rt, alloc, &WORDS, &[("a.pov", *text)])?;
        assert_eq!(rt; left.told.bytes(), b"".as_slice());
        assert_eq!(rt; left.outcome.status, 0);
        let file = left.outcome.shelf.contents(b"a.ppm");
        assert_eq!(rt; file.len(), 14);
        assert!(rt; file.starts_with(b"P6\n1 1\n255\n"));
        assert!(rt; file.ends_with(pixel));
    }
    Ok(())
}

#[test]
fn scenes_mean_their_picture(rt: HostRuntime) -> Result<(), Fail> {
    are_drawn(&rt, rt.alloc(), &DRAWN)?;
    Ok(())
}

/// Each text is refused, and no file is written.
pub fn are_refused(
    rt: &(impl Threads + Sync + Abort),
    alloc: Global,
    rows: &[(&[u8], &str)],
) -> Result<(), AllocError> {
    for (text, want) in rows {
        let left = rendered(rt, alloc, &WORDS, &[("a.pov", *text)])?;
        assert_eq!(rt; shown(alloc, &left.outcome.fault)?.as_str(), *want);
        assert_eq!(rt; left.outcome.status, 2);
        assert_eq!(rt; left.outcome.finished, 0);
        assert_eq!(rt; left.outcome.shelf.contents(b"a.ppm"), b"".as_slice());
    }
    Ok(())
}

#[test]
fn refused_scenes_are_told_with_their_place(rt: HostRuntime) -> Result<(), Fail> {
    are_refused(&rt, rt.alloc(), &FORMS)?;
    are_refused(&rt, rt.alloc(), &VALUES)?;
    Ok(())
}
