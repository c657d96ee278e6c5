// Scenes whose parameters are expressions.
use crate::rig::rendered;
use crate::scenes::{are_drawn, are_refused};
use std::test::Fail;

/// Texts and the one pixel of their picture.
const DRAWN: [(&[u8], [u8; 3]); 27] = [
    (b"background { rgb 1 }", [255, 255, 255]),
    (b"background { 0.5 }", [128, 128, 128]),
    (b"background { <1,0,0> }", [255, 0, 0]),
    (b"background { color <0,1,0> }", [0, 255, 0]),
    (b"background { colour color rgb <1,1,1> }", [255, 255, 255]),
    (b"background { rgb <1,1,1,1> }", [255, 255, 255]),
    (b"background { rgbt <1,0,0,0.5> }", [255, 0, 0]),
    (b"background { rgbf 2 }", [255, 255, 255]),
    (b"background { red 1 blue 0.5 }", [255, 0, 128]),
    (b"background { rgb <--1,0,0> }", [255, 0, 0]),
    (b"background { rgb <+1,0,0> }", [255, 0, 0]),
    (b"background { rgb <1,0,0> + rgb <0,1,0> }", [255, 255, 0]),
    (b"background { rgb <1,1,1>/2 }", [128, 128, 128]),
    (b"background { rgb (1 - 0.5) * x }", [128, 0, 0]),
    (b"background { rgb 1 - <0,1,1> }", [255, 0, 0]),
    (b"background { rgb x + z }", [255, 0, 255]),
    (
        b"background { rgb <sqrt(1), abs(-1), sin(0)> }",
        [255, 255, 0],
    ),
    (
        b"background { rgb <image_width, image_height, clock> }",
        [255, 255, 0],
    ),
    (
        b"background { rgb <frame_number, initial_frame - 1, final_clock> }",
        [255, 0, 255],
    ),
    (b"background { (2 < 3) }", [255, 255, 255]),
    (b"background { rgb (1 ? x : y) }", [255, 0, 0]),
    (
        b"sphere { 4*z, 2/2 pigment { rgb y } finish { ambient 1 diffuse 0 } }",
        [0, 255, 0],
    ),
    (
        b"sphere { <0,0,4> 1 pigment { rgb <0,1,0> } finish { ambient 1 diffuse 0 } }",
        [0, 255, 0],
    ),
    (
        b"sphere { 4*z + 0, 1 pigment { color <0,0,1> } finish { ambient 1 diffuse 0 } }",
        [0, 0, 255],
    ),
    (
        b"sphere { 0, 1 pigment { rgb 1 } finish { ambient 1 diffuse 0 } }",
        [255, 255, 255],
    ),
    (
        b"sphere { <0,0,4> (1) pigment { rgb <1,0,0> } finish { ambient 1 diffuse 0 } }",
        [255, 0, 0],
    ),
    (
        b"sphere { <0,0,4>, vlength(<3,4,0>)/5 pigment { rgbft <1,0,0,0,0> } finish { ambient 1 diffuse 0 } }",
        [255, 0, 0],
    ),
];

/// Backgrounds that are refused: the letter, the kind, and the place as text, offset and line.
const BACKGROUNDS: [(&[u8], &str); 22] = [
    (b"background { foo }", "P2 0@13:1"),
    (b"background { rgb Foo }", "P2 0@17:1"),
    (b"background { }", "P1 0@13:1"),
    (b"background { color }", "P1 0@19:1"),
    (b"background { rgb <1,1> }", "P1 0@21:1"),
    (b"background { rgb <1 1,1> }", "P1 0@20:1"),
    (b"background { rgb <1 foo,1> }", "P1 0@20:1"),
    (b"background { rgb <1,1,1 }", "P1 0@24:1"),
    (b"background { (1 }", "P1 0@16:1"),
    (b"background { \"a\" }", "P1 0@13:1"),
    (b"background { rgb \"a\" }", "P1 0@13:1"),
    (b"background { color 0.5 }", "P1 0@13:1"),
    (b"background { rgb 1/0 }", "P3 0@18:1"),
    (b"background { rgb <1,0,1/0> }", "P3 0@23:1"),
    (b"background {\n rgb\n 1/0 }", "P3 0@20:3"),
    (b"background { rgb 300 }", "P3 0@13:1"),
    (b"background { rgb 2147483647 + 1 }", "P3 0@28:1"),
    (b"background { rgb <1,2,3>.w }", "P1 0@25:1"),
    (b"background { rgb <1,2,3>.red }", "P1 0@24:1"),
    (b"background { 2 < 3 }", "P1 0@15:1"),
    (b"background { rgb min(1) }", "P1 0@22:1"),
    (b"background { rgb sqrt(-1) }", "P3 0@17:1"),
];

/// Spheres that are refused.
const BALLS: [(&[u8], &str); 15] = [
    (
        b"sphere { <0,0,4>, 1 pigment { rgbf <1,0,0,2> } finish { ambient 1 diffuse 0 } }",
        "P3 0@30:1",
    ),
    (
        b"sphere { <0,0,4>, 1 pigment { rgbt <1,0,0,-1> } finish { ambient 1 diffuse 0 } }",
        "P3 0@30:1",
    ),
    (
        b"sphere { <0,0,4>, 1 pigment { rgb <1,0,257> } finish { ambient 1 diffuse 0 } }",
        "P3 0@30:1",
    ),
    (
        b"sphere { <0,0,4>, 1 pigment { rgbf <257,0,0,0.5> } finish { ambient 1 diffuse 0 } }",
        "P3 0@30:1",
    ),
    (
        b"sphere { <0,0,4>, 1 pigment { \"a\" } finish { ambient 1 diffuse 0 } }",
        "P1 0@30:1",
    ),
    (b"sphere { rgb 1, 1", "P1 0@9:1"),
    (b"sphere { \"a\", 1", "P1 0@9:1"),
    (b"sphere { <0,0,4>, <1,1,1> pigment", "P1 0@18:1"),
    (b"sphere { <0,0,4>, 1/0 pigment", "P3 0@19:1"),
    (b"sphere { <0,0,4097>, 1/0 pigment", "P3 0@9:1"),
    (b"sphere { <0,0,1/0>, -1 pigment", "P3 0@15:1"),
    (b"sphere { <0,0,4> -1 pigment", "P2 0@20:1"),
    (b"sphere { <0,0,4>,, 1 pigment", "P1 0@17:1"),
    (b"sphere { <0,0,4>, 1, pigment", "P1 0@19:1"),
    (b"sphere { <0,0,4>,", "P1 0@17:1"),
];

/// The spheres of `SPHERES`, told by expressions.
const TOLD_OTHERWISE: &[u8] = b"background { rgb <1,2,3>/10 }
sphere { 4*z, 1 pigment { rgb x } finish { ambient 1 diffuse 0 } }
sphere { x + 0.5*y + 3.5*z 3/4 pigment { rgb y } finish { ambient 1 diffuse 0 } }
sphere { -<1.5,0.5,-4.5>, cos(0) pigment { rgb 200*z } finish { ambient 1 diffuse 0 } }
";

#[test]
fn parameters_are_expressions(rt: HostRuntime) -> Result<(), Fail> {
    are_drawn(&rt, rt.alloc(), &DRAWN)?;
    are_refused(&rt, rt.alloc(), &BACKGROUNDS)?;
    are_refused(&rt, rt.alloc(), &BALLS)?;
    Ok(())
}

/// Three spheres, one before another, each pixel found by asking membership at every number of its ray.
const SPHERES: &[u8] = b"background { rgb <0.1,0.2,0.3> }
sphere { <0,0,4>, 1 pigment { rgb <1,0,0> } finish { ambient 1 diffuse 0 } }
sphere { <1,0.5,3.5>, 0.75 pigment { rgb <0,1,0> } finish { ambient 1 diffuse 0 } }
sphere { <-1.5,-0.5,4.5>, 1 pigment { rgb <0,0,200> } finish { ambient 1 diffuse 0 } }
";

#[test]
fn the_nearest_sphere_is_seen(rt: HostRuntime) -> Result<(), Fail> {
    let left = rendered(
        &rt,
        rt.alloc(),
        &["a.pov", "+W6", "+H4"],
        &[("a.pov", SPHERES)],
    )?;
    let file: &[u8] = b"P6\n6 4\n255\n\
\x1a\x33\x4d\x1a\x33\x4d\x1a\x33\x4d\x1a\x33\x4d\x1a\x33\x4d\x1a\x33\x4d\
\x1a\x33\x4d\x1a\x33\x4d\xff\x00\x00\x00\xff\x00\x00\xff\x00\x1a\x33\x4d\
\x00\x00\xff\x00\x00\xff\xff\x00\x00\xff\x00\x00\x1a\x33\x4d\x1a\x33\x4d\
\x1a\x33\x4d\x1a\x33\x4d\x1a\x33\x4d\x1a\x33\x4d\x1a\x33\x4d\x1a\x33\x4d";
    assert_eq!(&rt; left.outcome.shelf.contents(b"a.ppm"), file);
    Ok(())
}

#[test]
fn expressions_draw_what_their_numbers_draw(rt: HostRuntime) -> Result<(), Fail> {
    let words = ["a.pov", "+W60", "+H40"];
    let numbers = rendered(&rt, rt.alloc(), &words, &[("a.pov", SPHERES)])?;
    let others = rendered(&rt, rt.alloc(), &words, &[("a.pov", TOLD_OTHERWISE)])?;
    let file = others.outcome.shelf.contents(b"a.ppm");
    assert_eq!(&rt; file.len(), 7213);
    assert_eq!(&rt; file, numbers.outcome.shelf.contents(b"a.ppm"));
    Ok(())
}
