// Whole scenes with the pixels of their pictures, worked out by hand from the rules.
use crate::rig::{rendered, shown};
use crate::scenes::are_drawn;
use std::alloc::{AllocError, Global};
use std::process::Abort;
use std::test::Fail;
use std::thread::Threads;

/// Groups, transforms, blocks by their names, and light that goes through.
const SOLIDS: [(&[u8], [u8; 3]); 10] = [
    (
        b"background { rgb 1 } union { sphere { <0,0,4>, 1 } sphere { <0,0,5>, 1 } pigment { rgbf <0.5,0.5,0.5,1> } }",
        [16, 16, 16],
    ),
    (
        b"background { rgb 1 } merge { sphere { <0,0,4>, 1 } sphere { <0,0,5>, 1 } pigment { rgbf <0.5,0.5,0.5,1> } }",
        [64, 64, 64],
    ),
    (
        b"background { rgb 1 } intersection { plane { z, 262145/65536 scale 0.5 } plane { -z, -262145/65536 scale 0.5 } finish { ambient 1 diffuse 0 } }",
        [255, 255, 255],
    ),
    (
        b"difference { box { <-1,-1,3>, <1,1,5> pigment { rgb <1,0,0> } finish { ambient 1 diffuse 0 } } box { <-1,-1,3>, <1,1,4> pigment { rgb <0,0,1> } finish { ambient 1 diffuse 0 } } }",
        [0, 0, 255],
    ),
    (
        b"box { <1,-1,3>, <3,1,5> pigment { rgb 1 } finish { ambient 1 diffuse 0 } rotate 90*z translate -2*y }",
        [255, 255, 255],
    ),
    (
        b"box { <1,-1,3>, <3,1,5> pigment { rgb 1 } finish { ambient 1 diffuse 0 } translate -2*y rotate 90*z }",
        [0, 0, 0],
    ),
    (
        b"background { rgb <0,0,1> } camera { direction <0,1,1> } plane { y, 1 pigment { rgbf 1 } finish { ambient 0 diffuse 0 } interior { ior 2 } } plane { -y, -3 pigment { rgb <1,0,0> } finish { ambient 1 diffuse 0 } }",
        [0, 0, 255],
    ),
    (
        b"light_source { 0, rgb 16 } box { <-1,-1,2>, <1,1,3> pigment { rgbf <0.5,0.5,0.5,1> } } box { <-1,-1,4>, <1,1,5> pigment { rgbf <0.5,0.5,0.5,1> } } box { <-1,-1,8>, <1,1,9> pigment { rgb 1 } finish { ambient 0 diffuse 1 } }",
        [16, 16, 16],
    ),
    (
        b"#declare C = rgb <1,0,0>; #declare B = sphere { <0,0,4>, 1 pigment { color C } finish { ambient 1 diffuse 0 } } #declare C = rgb <0,1,0>; object { B }",
        [255, 0, 0],
    ),
    (
        b"#declare G = rgb <0,1,0>; box { <-1,-1,3> <1,1,5> pigment { gradient z color_map { [0 G][1 color G] } } finish { ambient 1 diffuse 0 } }",
        [0, 255, 0],
    ),
];

/// Two mirrors that face each other: each level more adds a quarter, and so does each weight that isn't too small.
const LEVELS: [(&[u8], [u8; 3]); 5] = [
    (
        b"global_settings { max_trace_level 1 } plane { z, 4 pigment { rgb <0.25,0,0> } finish { ambient 1 diffuse 0 reflection 1 } } plane { -z, 4 pigment { rgb <0,0,0.25> } finish { ambient 1 diffuse 0 reflection 1 } }",
        [64, 0, 0],
    ),
    (
        b"global_settings { max_trace_level 2 } plane { z, 4 pigment { rgb <0.25,0,0> } finish { ambient 1 diffuse 0 reflection 1 } } plane { -z, 4 pigment { rgb <0,0,0.25> } finish { ambient 1 diffuse 0 reflection 1 } }",
        [64, 0, 64],
    ),
    (
        b"global_settings { max_trace_level 3 } plane { z, 4 pigment { rgb <0.25,0,0> } finish { ambient 1 diffuse 0 reflection 1 } } plane { -z, 4 pigment { rgb <0,0,0.25> } finish { ambient 1 diffuse 0 reflection 1 } }",
        [128, 0, 64],
    ),
    (
        b"global_settings { max_trace_level 3 adc_bailout 0.5 } plane { z, 4 pigment { rgb <0.25,0,0> } finish { ambient 1 diffuse 0 reflection 0.25 } } plane { -z, 4 pigment { rgb <0,0,0.25> } finish { ambient 1 diffuse 0 reflection 0.25 } }",
        [64, 0, 0],
    ),
    (
        b"global_settings { max_trace_level 3 adc_bailout 0.25 } plane { z, 4 pigment { rgb <0.25,0,0> } finish { ambient 1 diffuse 0 reflection 0.25 } } plane { -z, 4 pigment { rgb <0,0,0.25> } finish { ambient 1 diffuse 0 reflection 0.25 } }",
        [64, 0, 16],
    ),
];

/// A ball before the camera, and a lamp at it: plain, fading, and with a cone that holds the ball, misses it, and holds it in part.
const LAMPS: [(&[u8], [u8; 3]); 5] = [
    (
        b"sphere { <0,0,4>, 1 pigment { rgb 1 } finish { ambient 0 diffuse 0.5 } } light_source { 0, rgb 1 }",
        [128, 128, 128],
    ),
    (
        b"sphere { <0,0,4>, 1 pigment { rgb 1 } finish { ambient 0 diffuse 0.5 } } light_source { 0, rgb 1 fade_distance 1 fade_power 2 }",
        [26, 26, 26],
    ),
    (
        b"sphere { <0,0,4>, 1 pigment { rgb 1 } finish { ambient 0 diffuse 0.5 } } light_source { 0, rgb 1 spotlight point_at <0,0,4> radius 10 falloff 20 }",
        [128, 128, 128],
    ),
    (
        b"sphere { <0,0,4>, 1 pigment { rgb 1 } finish { ambient 0 diffuse 0.5 } } light_source { 0, rgb 1 spotlight point_at x radius 10 falloff 20 }",
        [0, 0, 0],
    ),
    (
        b"sphere { <0,0,4>, 1 pigment { rgb 1 } finish { ambient 0 diffuse 0.5 } } light_source { 0, rgb 1 spotlight point_at <0,1,1> radius 0 falloff 60 }",
        [48, 48, 48],
    ),
];

/// Words, a scene, and its pixels: patterns in a row, and edges that are looked at again.
const ROWS: [(&[&str], &[u8], &[u8]); 6] = [
    (
        &["a.pov", "+W4", "+H1"],
        b"camera { orthographic location <0,4,0> direction -y right 4*x up 4*z } plane { y, 0 pigment { checker rgb 1, rgb 0 } finish { ambient 1 diffuse 0 } }",
        &[255, 255, 255, 0, 0, 0, 255, 255, 255, 0, 0, 0],
    ),
    (
        &["a.pov", "+W4", "+H1"],
        b"camera { orthographic right x up y } plane { z, 4 pigment { gradient x color_map { [0 rgb 0][1 rgb 1] } } finish { ambient 1 diffuse 0 } }",
        &[159, 159, 159, 223, 223, 223, 32, 32, 32, 96, 96, 96],
    ),
    (
        &["a.pov", "+W2", "+H1", "+A0.3", "+R2"],
        b"background { rgb 1 } camera { orthographic right 2*x up y } box { <-2,-1,3>, <0.3,1,5> finish { ambient 1 diffuse 0 } }",
        &[0, 0, 0, 128, 128, 128],
    ),
    (
        &["a.pov", "+W2", "+H1", "+A0.3", "+R2"],
        b"background { rgb 1 } camera { orthographic right 2*x up y } box { <-2,-1,3>, <-0.3,1,5> finish { ambient 1 diffuse 0 } }",
        &[128, 128, 128, 255, 255, 255],
    ),
    (
        &["a.pov", "+W1", "+H1", "+A0", "+R2"],
        b"background { rgb 1 } camera { orthographic right x up y } box { <-2,-1,3>, <0.1,1,5> finish { ambient 1 diffuse 0 } }",
        &[128, 128, 128],
    ),
    (
        &["a.pov", "+W33", "+H1", "+A0.3", "+R2"],
        b"background { rgb 1 } camera { orthographic right 33*x up y } box { <-20,-1,3>, <15.9,1,5> finish { ambient 1 diffuse 0 } }",
        &[
            0, 0, 0, 0, 0, 0, 0, 0, 0, 0, 0, 0, 0, 0, 0, 0, 0, 0, 0, 0, 0, 0, 0, 0, 0, 0, 0, 0, 0,
            0, 0, 0, 0, 0, 0, 0, 0, 0, 0, 0, 0, 0, 0, 0, 0, 0, 0, 0, 0, 0, 0, 0, 0, 0, 0, 0, 0, 0,
            0, 0, 0, 0, 0, 0, 0, 0, 0, 0, 0, 0, 0, 0, 0, 0, 0, 0, 0, 0, 0, 0, 0, 0, 0, 0, 0, 0, 0,
            0, 0, 0, 0, 0, 0, 0, 0, 0, 128, 128, 128,
        ],
    ),
];

#[test]
fn scenes_show_what_is_worked_out(rt: HostRuntime) -> Result<(), Fail> {
    are_drawn(&rt, rt.alloc(), &SOLIDS)?;
    are_drawn(&rt, rt.alloc(), &LEVELS)?;
    are_drawn(&rt, rt.alloc(), &LAMPS)?;
    Ok(())
}

#[test]
fn rows_of_pixels_show_what_is_worked_out(rt: HostRuntime) -> Result<(), Fail> {
    for (words, text, pixels) in ROWS {
        let left = rendered(&rt, rt.alloc(), words, &[("a.pov", text)])?;
        assert_eq!(&rt; left.told.bytes(), b"".as_slice());
        assert!(&rt; left.outcome.shelf.contents(b"a.ppm").ends_with(pixels));
    }
    Ok(())
}

/// Half of red and green in two bytes a sample, the high one first; a Targa keeps 8 bits, blue first.
#[test]
fn samples_have_the_bits_that_are_asked_for(rt: HostRuntime) -> Result<(), Fail> {
    let text = b"background { color rgb <1,0.5,0> }";
    let rows: [(&str, &str, &[u8]); 2] = [
        ("+FP16", "a.ppm", b"P6\n1 1\n65535\n\xff\xff\x80\0\0\0"),
        (
            "+FT",
            "a.tga",
            b"\0\0\x02\0\0\0\0\0\0\0\0\0\x01\0\x01\0\x18\x20\0\x80\xff",
        ),
    ];
    for (word, name, file) in rows {
        let words = ["a.pov", "+W1", "+H1", "b.ini", word];
        let texts: [(&str, &[u8]); 2] = [("a.pov", text), ("b.ini", b"Bits_Per_Color=16")];
        let left = rendered(&rt, rt.alloc(), &words, &texts)?;
        assert_eq!(&rt; left.outcome.shelf.contents(name.as_bytes()), file);
    }
    Ok(())
}

/// How a scene of one pixel ends.
fn ends_so(
    rt: &(impl Threads + Sync + Abort),
    alloc: Global,
    text: &[u8],
    want: &str,
) -> Result<(), AllocError> {
    let words = ["a.pov", "+W1", "+H1"];
    let left = rendered(rt, alloc, &words, &[("a.pov", text)])?;
    assert_eq!(rt; shown(alloc, &left.outcome.fault)?.as_str(), want);
    Ok(())
}

#[test]
fn as_many_solids_as_there_may_be_are_drawn(rt: HostRuntime) -> Result<(), Fail> {
    let text = b"#for (I,1,65536) sphere { 0, 1 } #end";
    ends_so(&rt, rt.alloc(), text, "done")?;
    Ok(())
}

#[test]
fn one_solid_more_is_refused(rt: HostRuntime) -> Result<(), Fail> {
    let text = b"#for (I,1,65537) sphere { 0, 1 } #end";
    ends_so(&rt, rt.alloc(), text, "limit 5 0@17:1")?;
    Ok(())
}

#[test]
fn one_triangle_more_than_there_may_be_is_refused(rt: HostRuntime) -> Result<(), Fail> {
    let text = b"mesh { #for (I,1,131073) triangle { 0, x, y } #end }";
    ends_so(&rt, rt.alloc(), text, "limit 10 0@25:1")?;
    Ok(())
}

/// A ball whose middle is in the world's last corner along an axis.
#[test]
fn the_world_ends_behind_its_last_number(rt: HostRuntime) -> Result<(), Fail> {
    ends_so(&rt, rt.alloc(), b"sphere { <0,0,4096>, 1 }", "done")?;
    Ok(())
}
