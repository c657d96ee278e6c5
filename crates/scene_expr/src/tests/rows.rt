// Vectors and colours.
use super::{agree, refused};
use crate::Level;
use std::alloc::{AllocError, Global};
use std::process::Abort;

/// Vectors, component by component.
fn vectors(rt: &impl Abort, alloc: Global) -> Result<(), AllocError> {
    agree(
        rt,
        alloc,
        Level::Choice,
        &[
            (b"<1,2,3>+<4,5,6>", "<327680, 458752, 589824> ->15"),
            (b"<1,2,3>-<4,6,8>", "<-196608, -262144, -327680> ->15"),
            (b"<1,2,3>*<4,5,6>", "<262144, 655360, 1179648> ->15"),
            (b"<1,2,3>/<2,4,-1>", "<32768, 32768, -196608> ->16"),
            (b"<1,2,3>+1", "<131072, 196608, 262144> ->9"),
            (b"1-<1,2,3>", "<0, -65536, -131072> ->9"),
            (b"2*<1,2,3>", "<131072, 262144, 393216> ->9"),
            (b"<1,2,3>/2", "<32768, 65536, 98304> ->9"),
            (b"1/<1,2,4>", "<65536, 32768, 16384> ->9"),
            (b"x+2*y-z", "<65536, 131072, -65536> ->7"),
            (b"-<1,-2,3>", "<-65536, 131072, -196608> ->9"),
            (b"+<1,2,3>", "<65536, 131072, 196608> ->8"),
            (b"<1+1,2*3,-1>", "<131072, 393216, -65536> ->12"),
            (b"<(1 < 2), 3, (0 ? 1 : 4)>", "<65536, 196608, 262144> ->17"),
            (b"<1,2,3> > 2", "Kind in 7@8:1"),
            (b"<1,2,3>>2", "Kind in 7@7:1"),
            (b"<1,2,3>.y", "131072 ->9"),
            (b"<1,2,3>.x", "65536 ->9"),
            (b"<1,2,3>.z", "196608 ->9"),
            (b"-<1,2,3>.y", "-131072 ->10"),
            (b"y.x", "0 ->3"),
            (b"(x + y).y", "65536 ->7"),
            (b"2*z.z", "131072 ->5"),
            (b"x.x + <2,3,4>.z * 2", "589824 ->15"),
            (b"x.y = 0", "65536 ->5"),
            (b"x .5", "<65536, 0, 0> ->1"),
            (b"<1,2,3> < <4,5,6>", "Kind in 7@8:1"),
        ],
    )
}

/// Kinds and divisors of vectors, and what is missing in them.
fn vectors_without_a_value(rt: &impl Abort, alloc: Global) -> Result<(), AllocError> {
    agree(
        rt,
        alloc,
        Level::Choice,
        &[
            (b"<1,2,3>/0", "ZeroDivisor in 7@7:1"),
            (b"<1,2,3>/<1,0,3>", "ZeroDivisor in 7@7:1"),
            (b"1/x", "ZeroDivisor in 7@1:1"),
            (b"<2000000000,1,1>/<0.1,1,0>", "ZeroDivisor in 7@16:1"),
            (b"<1,2000000000,1>/<0,0.1,1>", "ZeroDivisor in 7@16:1"),
            (b"<2000000000,1,1>/<0.1,1,1>", "Range in 7@16:1"),
            (b"<1,1,2000000000>+<1,1,2000000000>", "Range in 7@16:1"),
            (b"100000*<1,2,100000>", "Range in 7@6:1"),
            (b"!x", "Kind in 7@0:1"),
            (b"x = x", "Kind in 7@2:1"),
            (b"x != 1", "Kind in 7@2:1"),
            (b"1 < x", "Kind in 7@2:1"),
            (b"x >= 1", "Kind in 7@2:1"),
            (b"x & 1", "Kind in 7@2:1"),
            (b"1 | x", "Kind in 7@2:1"),
            (b"<1,2,3>.x.y", "Kind in 7@9:1"),
            (b"1.x", "Kind in 7@1:1"),
            (b"pi.x", "Kind in 7@2:1"),
            (b"x.red", "Kind in 7@1:1"),
            (b"x.foo", "Expected in 7@2:1"),
            (b"x.rgb", "Expected in 7@2:1"),
            (b"x.x.foo", "Expected in 7@4:1"),
            (b"1.foo", "Expected in 7@2:1"),
            (b"x.", "Expected in 7@2:1"),
            (b"x. 1", "Expected in 7@3:1"),
            (b"\"a\".x", "Kind in 7@3:1"),
            (b"-1 + 2.y * Foo", "Kind in 7@6:1"),
        ],
    )
}

/// Three to five numbers stand between `<` and `>`.
fn between_angle_brackets(rt: &impl Abort, alloc: Global) -> Result<(), AllocError> {
    agree(
        rt,
        alloc,
        Level::Choice,
        &[
            (b"<1,2,3,4>", "rgbft 65536, 131072, 196608, 262144, 0 ->9"),
            (
                b"<1,2,3,4,5>",
                "rgbft 65536, 131072, 196608, 262144, 327680 ->11",
            ),
            (b"<1,2,3", "Expected in 7@6:1"),
            (b"<1,2,", "Expected in 7@5:1"),
            (b"<1,2>", "Expected in 7@4:1"),
            (b"<1>", "Expected in 7@2:1"),
            (b"<>", "Expected in 7@1:1"),
            (b"<1,2,3,>", "Expected in 7@7:1"),
            (b"<1,2,3,4,5,6>", "Expected in 7@10:1"),
            (b"<1 2,3>", "Expected in 7@3:1"),
            (b"<1,2)", "Expected in 7@4:1"),
            (b"<1 foo, 2, 3>", "Expected in 7@3:1"),
            (b"<1 < 2, 3, 4>", "Expected in 7@3:1"),
            (b"<1,2,3>=4", "Expected in 7@6:1"),
            (b"<1,2,3 & 4>", "Expected in 7@7:1"),
            (b"<1,2,3 ? 4 : 5>", "Expected in 7@7:1"),
            (b"<\"a\",2,3>", "Kind in 7@0:1"),
            (b"<1,x,3>", "Kind in 7@0:1"),
            (b"<1,2,3,x>", "Kind in 7@0:1"),
            (b"<1,2,3,4,\"a\">", "Kind in 7@0:1"),
            (b"1 + <1,2,rgb 1> / 0", "Kind in 7@4:1"),
            (b"<1,\"a\",2", "Expected in 7@8:1"),
            (b"<\"a\",x>", "Expected in 7@6:1"),
            (b"<\"a\",2,3)", "Expected in 7@8:1"),
            (b"<\"a\",1/0,3>", "ZeroDivisor in 7@6:1"),
            (b"<1,2,Foo", "UnknownName in 7@5:1"),
            (b"<1/0,Foo,3", "ZeroDivisor in 7@2:1"),
            (b"<1,2,3> = <1,2,3>", "Kind in 7@8:1"),
            (b"<100000*100000,\"a\",1>", "Range in 7@7:1"),
        ],
    )
}

/// Products, lengths and turns of vectors.
fn calls_of_vectors(rt: &impl Abort, alloc: Global) -> Result<(), AllocError> {
    agree(
        rt,
        alloc,
        Level::Choice,
        &[
            (b"vdot(<1,2,3>,<4,5,6>)", "2097152 ->18"),
            (b"vdot(x,y)", "0 ->6"),
            (
                b"vdot(<0.5,0.5,0>,<0.0000152587890625,0.0000152587890625,0>)",
                "1 ->18",
            ),
            (
                b"vdot(<0.5,0.5,0.5>,<0.0000152587890625,0.0000152587890625,0.0000152587890625>)",
                "2 ->18",
            ),
            (b"vdot(<40000,40000,0>,<40000,40000,0>)", "Range in 7@0:1"),
            (b"vcross(x,y)", "<0, 0, 65536> ->6"),
            (b"vcross(y,x)", "<0, 0, -65536> ->6"),
            (
                b"vcross(<1,2,3>,<4,5,6>)",
                "<-196608, 393216, -196608> ->18",
            ),
            (b"vcross(<0,50000,0>,<0,0,50000>)", "Range in 7@0:1"),
            (b"vlength(<3,-4,0>)", "327680 ->11"),
            (b"vlength(<1,1,1>)", "113511 ->10"),
            (b"vlength(<0,0,0>)", "0 ->10"),
            (b"vlength(<2000000000,2000000000,0>)", "Range in 7@0:1"),
            (b"vnormalize(<0,0,0>)", "<0, 0, 65536> ->10"),
            (b"vnormalize(-2*y)", "<0, -65536, 0> ->7"),
            (b"vnormalize(<3,0,4>)", "<39322, 0, 52429> ->10"),
            (b"vnormalize(<1,-1,1>)", "<37837, -37837, 37837> ->11"),
            (b"vrotate(x,90*z)", "<0, 65536, 0> ->8"),
            (b"vrotate(y,90*x)", "<0, 0, 65536> ->8"),
            (b"vrotate(x,90*y)", "<0, 0, -65536> ->8"),
            (b"vrotate(y,<90,90,0>)", "<65536, 0, 0> ->12"),
            (b"vrotate(x,-90*z)", "<0, -65536, 0> ->9"),
            (
                b"vrotate(<1,2,3>,<10,20,30>)",
                "<69954, 150015, 180917> ->18",
            ),
            (
                b"vrotate(<-1,0.5,2>,<-100,200,305.5>)",
                "<147146, 6195, 29298> ->20",
            ),
            (b"vrotate(<2147483647,2147483647,0>,45*z)", "Range in 7@0:1"),
            (b"vdot(x,1)", "Kind in 7@0:1"),
            (b"vlength(rgb 1)", "Kind in 7@0:1"),
            (b"vrotate(1,x)", "Kind in 7@0:1"),
            (b"vcross(x,\"a\")", "Kind in 7@0:1"),
            (b"vnormalize(1)", "Kind in 7@0:1"),
        ],
    )
}

/// Colours by their words: a form with a factor, or numbers behind their words.
fn colours(rt: &impl Abort, alloc: Global) -> Result<(), AllocError> {
    agree(
        rt,
        alloc,
        Level::Choice,
        &[
            (b"rgb 1", "rgbft 65536, 65536, 65536, 0, 0 ->2"),
            (b"rgbf 0.5", "rgbft 32768, 32768, 32768, 32768, 0 ->2"),
            (b"rgbt 0.5", "rgbft 32768, 32768, 32768, 0, 32768 ->2"),
            (b"rgbft 0.5", "rgbft 32768, 32768, 32768, 32768, 32768 ->2"),
            (b"rgb <1,2,3>", "rgbft 65536, 131072, 196608, 0, 0 ->8"),
            (b"rgbf <1,2,3>", "rgbft 65536, 131072, 196608, 0, 0 ->8"),
            (b"rgbt <1,2,3>", "rgbft 65536, 131072, 196608, 0, 0 ->8"),
            (b"rgbft <1,2,3>", "rgbft 65536, 131072, 196608, 0, 0 ->8"),
            (
                b"rgbf <1,2,3,4>",
                "rgbft 65536, 131072, 196608, 262144, 0 ->10",
            ),
            (b"rgbt <1,0,0,0.5>", "rgbft 65536, 0, 0, 0, 32768 ->10"),
            (
                b"rgbft <1,2,3,4>",
                "rgbft 65536, 131072, 196608, 262144, 0 ->10",
            ),
            (b"rgb <1,2,3,4,5>", "rgbft 65536, 131072, 196608, 0, 0 ->12"),
            (
                b"rgbf <1,2,3,4,5>",
                "rgbft 65536, 131072, 196608, 262144, 0 ->12",
            ),
            (
                b"rgbt <1,2,3,4,5>",
                "rgbft 65536, 131072, 196608, 0, 262144 ->12",
            ),
            (
                b"rgbft <1,2,3,4,5>",
                "rgbft 65536, 131072, 196608, 262144, 327680 ->12",
            ),
            (b"rgb rgbft 2", "rgbft 131072, 131072, 131072, 0, 0 ->3"),
            (
                b"rgbt rgbf <1,2,3,4>",
                "rgbft 65536, 131072, 196608, 0, 262144 ->11",
            ),
            (b"rgb -1", "rgbft -65536, -65536, -65536, 0, 0 ->3"),
            (
                b"rgb 1-0.5",
                "rgbft 32768, 32768, 32768, -32768, -32768 ->4",
            ),
            (b"rgb 1*2", "rgbft 131072, 131072, 131072, 0, 0 ->4"),
            (b"rgb <1,2,3>.y", "rgbft 131072, 131072, 131072, 0, 0 ->10"),
            (b"rgb red 2", "rgbft 131072, 0, 0, 0, 0 ->3"),
            (b"rgb 1 green 2", "rgbft 65536, 65536, 65536, 0, 0 ->2"),
            (b"color rgb 1", "rgbft 65536, 65536, 65536, 0, 0 ->3"),
            (
                b"colour rgbf <1,2,3,4>",
                "rgbft 65536, 131072, 196608, 262144, 0 ->11",
            ),
            (b"color color rgb 1", "rgbft 65536, 65536, 65536, 0, 0 ->4"),
            (b"color x", "rgbft 65536, 0, 0, 0, 0 ->2"),
            (
                b"color <1,2,3,4>",
                "rgbft 65536, 131072, 196608, 262144, 0 ->10",
            ),
            (b"color x + y", "rgbft 65536, 65536, 0, 0, 0 ->4"),
        ],
    )
}

/// Numbers of colours behind their words, components, and operators with colours.
fn colours_and_numbers(rt: &impl Abort, alloc: Global) -> Result<(), AllocError> {
    agree(
        rt,
        alloc,
        Level::Choice,
        &[
            (b"red 1", "rgbft 65536, 0, 0, 0, 0 ->2"),
            (
                b"red 1 green 0.5 blue 2 filter 3 transmit 4",
                "rgbft 65536, 32768, 131072, 196608, 262144 ->10",
            ),
            (
                b"transmit 4 blue 2 red 1",
                "rgbft 65536, 0, 131072, 0, 262144 ->6",
            ),
            (b"red 1 red 2", "rgbft 131072, 0, 0, 0, 0 ->4"),
            (b"red 1+1 green 3*2", "rgbft 131072, 393216, 0, 0, 0 ->8"),
            (b"filter -1", "rgbft 0, 0, 0, -65536, 0 ->3"),
            (b"color red 1 blue 2", "rgbft 65536, 0, 131072, 0, 0 ->5"),
            (b"red 1 rgb 2", "rgbft 65536, 0, 0, 0, 0 ->2"),
            (b"(red 1 green 2).green", "131072 ->8"),
            (b"<1,2,3,4,5>.red", "65536 ->13"),
            (b"<1,2,3,4,5>.blue", "196608 ->13"),
            (b"<1,2,3,4,5>.filter", "262144 ->13"),
            (b"<1,2,3,4,5>.transmit", "327680 ->13"),
            (b"-rgb 1", "rgbft -65536, -65536, -65536, 0, 0 ->3"),
            (b"+rgbft 1", "rgbft 65536, 65536, 65536, 65536, 65536 ->3"),
            (b"rgb 1 + x", "rgbft 131072, 65536, 65536, 0, 0 ->4"),
            (
                b"x + rgbft 1",
                "rgbft 131072, 65536, 65536, 65536, 65536 ->4",
            ),
            (b"rgbft 1 - y", "rgbft 65536, 0, 65536, 65536, 65536 ->4"),
            (b"x * rgbft 3", "rgbft 196608, 0, 0, 0, 0 ->4"),
            (b"rgbft 3 * y", "rgbft 0, 196608, 0, 0, 0 ->4"),
            (b"x / rgbft 2", "rgbft 32768, 0, 0, 0, 0 ->4"),
            (b"rgbft 1/2", "rgbft 32768, 32768, 32768, 32768, 32768 ->4"),
            (b"1/rgbft 2", "rgbft 32768, 32768, 32768, 32768, 32768 ->4"),
            (b"2*rgb <1,2,3>", "rgbft 131072, 262144, 393216, 0, 0 ->10"),
            (
                b"rgbft 3 - rgb 1",
                "rgbft 131072, 131072, 131072, 196608, 196608 ->5",
            ),
            (
                b"rgbft 2 * rgbf 3",
                "rgbft 393216, 393216, 393216, 393216, 0 ->5",
            ),
            (
                b"rgbft 6 / rgbft 4",
                "rgbft 98304, 98304, 98304, 98304, 98304 ->5",
            ),
            (
                b"rgbf 1 + 1",
                "rgbft 131072, 131072, 131072, 131072, 65536 ->4",
            ),
            (
                b"red <1,2,3>.y green x.x",
                "rgbft 131072, 65536, 0, 0, 0 ->14",
            ),
        ],
    )
}

/// Kinds and divisors of colours, and what is missing in them.
fn colours_without_a_value(rt: &impl Abort, alloc: Global) -> Result<(), AllocError> {
    agree(
        rt,
        alloc,
        Level::Choice,
        &[
            (b"color 0.5", "Kind in 7@0:1"),
            (b"color \"a\"", "Kind in 7@0:1"),
            (b"color 2*x", "Kind in 7@0:1"),
            (b"colour x.x", "Kind in 7@0:1"),
            (b"color", "Expected in 7@5:1"),
            (b"rgb", "Expected in 7@3:1"),
            (b"rgb )", "Expected in 7@4:1"),
            (b"rgb \"a\"", "Kind in 7@0:1"),
            (b"color rgbt \"a\"", "Kind in 7@6:1"),
            (b"rgb Foo", "UnknownName in 7@4:1"),
            (b"rgb 1.red", "Kind in 7@5:1"),
            (b"(rgb 1).x", "Kind in 7@7:1"),
            (b"red", "Expected in 7@3:1"),
            (b"red 1 green", "Expected in 7@11:1"),
            (b"red x", "Kind in 7@0:1"),
            (b"red 1 green x", "Kind in 7@6:1"),
            (b"red green 1", "Kind in 7@0:1"),
            (b"red \"a\" green Foo", "Kind in 7@0:1"),
            (b"red 1 .red", "Kind in 7@6:1"),
            (b"color red 1 blue Foo", "UnknownName in 7@17:1"),
            (b"rgbft 1 / x", "ZeroDivisor in 7@8:1"),
            (b"rgbft 1 / <1,2,4>", "ZeroDivisor in 7@8:1"),
            (b"1 / rgb 1", "ZeroDivisor in 7@2:1"),
            (b"rgbft 1 / 0", "ZeroDivisor in 7@8:1"),
            (b"rgbft 1000000000 * 3", "Range in 7@17:1"),
            (b"rgbft 2000000000 / <0.1,1,1,1>", "ZeroDivisor in 7@17:1"),
            (b"rgb 1 = 1", "Kind in 7@6:1"),
            (b"1 > rgb 1", "Kind in 7@2:1"),
            (b"rgb 1 & 1", "Kind in 7@6:1"),
            (b"!rgb 1", "Kind in 7@0:1"),
        ],
    )
}

/// `+` and `-` between each pair of kinds.
fn sums_of_each_pair(rt: &impl Abort, alloc: Global) -> Result<(), AllocError> {
    agree(
        rt,
        alloc,
        Level::Choice,
        &[
            (b"6 + 6", "786432 ->3"),
            (b"6 + <1,2,-4>", "<458752, 524288, 131072> ->10"),
            (
                b"6 + <2,4,-1,0.5,8>",
                "rgbft 524288, 655360, 327680, 425984, 917504 ->14",
            ),
            (b"<1,2,-4> + 6", "<458752, 524288, 131072> ->10"),
            (b"<1,2,-4> + <1,2,-4>", "<131072, 262144, -524288> ->17"),
            (
                b"<1,2,-4> + <2,4,-1,0.5,8>",
                "rgbft 196608, 393216, -327680, 32768, 524288 ->21",
            ),
            (
                b"<2,4,-1,0.5,8> + 6",
                "rgbft 524288, 655360, 327680, 425984, 917504 ->14",
            ),
            (
                b"<2,4,-1,0.5,8> + <1,2,-4>",
                "rgbft 196608, 393216, -327680, 32768, 524288 ->21",
            ),
            (
                b"<2,4,-1,0.5,8> + <2,4,-1,0.5,8>",
                "rgbft 262144, 524288, -131072, 65536, 1048576 ->25",
            ),
            (b"6 - 6", "0 ->3"),
            (b"6 - <1,2,-4>", "<327680, 262144, 655360> ->10"),
            (
                b"6 - <2,4,-1,0.5,8>",
                "rgbft 262144, 131072, 458752, 360448, -131072 ->14",
            ),
            (b"<1,2,-4> - 6", "<-327680, -262144, -655360> ->10"),
            (b"<1,2,-4> - <1,2,-4>", "<0, 0, 0> ->17"),
            (
                b"<1,2,-4> - <2,4,-1,0.5,8>",
                "rgbft -65536, -131072, -196608, -32768, -524288 ->21",
            ),
            (
                b"<2,4,-1,0.5,8> - 6",
                "rgbft -262144, -131072, -458752, -360448, 131072 ->14",
            ),
            (
                b"<2,4,-1,0.5,8> - <1,2,-4>",
                "rgbft 65536, 131072, 196608, 32768, 524288 ->21",
            ),
            (
                b"<2,4,-1,0.5,8> - <2,4,-1,0.5,8>",
                "rgbft 0, 0, 0, 0, 0 ->25",
            ),
        ],
    )
}

/// `*` and `/` between each pair of kinds; a vector has no filter and no transmit.
fn products_of_each_pair(rt: &impl Abort, alloc: Global) -> Result<(), AllocError> {
    agree(
        rt,
        alloc,
        Level::Choice,
        &[
            (b"6 * 6", "2359296 ->3"),
            (b"6 * <1,2,-4>", "<393216, 786432, -1572864> ->10"),
            (
                b"6 * <2,4,-1,0.5,8>",
                "rgbft 786432, 1572864, -393216, 196608, 3145728 ->14",
            ),
            (b"<1,2,-4> * 6", "<393216, 786432, -1572864> ->10"),
            (b"<1,2,-4> * <1,2,-4>", "<65536, 262144, 1048576> ->17"),
            (
                b"<1,2,-4> * <2,4,-1,0.5,8>",
                "rgbft 131072, 524288, 262144, 0, 0 ->21",
            ),
            (
                b"<2,4,-1,0.5,8> * 6",
                "rgbft 786432, 1572864, -393216, 196608, 3145728 ->14",
            ),
            (
                b"<2,4,-1,0.5,8> * <1,2,-4>",
                "rgbft 131072, 524288, 262144, 0, 0 ->21",
            ),
            (
                b"<2,4,-1,0.5,8> * <2,4,-1,0.5,8>",
                "rgbft 262144, 1048576, 65536, 16384, 4194304 ->25",
            ),
            (b"6 / 6", "65536 ->3"),
            (b"6 / <1,2,-4>", "<393216, 196608, -98304> ->10"),
            (
                b"6 / <2,4,-1,0.5,8>",
                "rgbft 196608, 98304, -393216, 786432, 49152 ->14",
            ),
            (b"<1,2,-4> / 6", "<10923, 21845, -43691> ->10"),
            (b"<1,2,-4> / <1,2,-4>", "<65536, 65536, 65536> ->17"),
            (
                b"<1,2,-4> / <2,4,-1,0.5,8>",
                "rgbft 32768, 32768, 262144, 0, 0 ->21",
            ),
            (
                b"<2,4,-1,0.5,8> / 6",
                "rgbft 21845, 43691, -10923, 5461, 87381 ->14",
            ),
            (b"<2,4,-1,0.5,8> / <1,2,-4>", "ZeroDivisor in 7@15:1"),
            (
                b"<2,4,-1,0.5,8> / <2,4,-1,0.5,8>",
                "rgbft 65536, 65536, 65536, 65536, 65536 ->25",
            ),
        ],
    )
}

/// Comparisons and truths take numbers alone, and no operator takes a text.
fn kinds_that_signs_refuse(rt: &impl Abort, alloc: Global) -> Result<(), AllocError> {
    refused(
        rt,
        alloc,
        &["=", "!=", "<", "<=", ">", ">=", "&", "|"],
        &[
            ("2", "x"),
            ("2", "rgb 2"),
            ("x", "2"),
            ("x", "y"),
            ("x", "rgb 2"),
            ("rgb 2", "2"),
            ("rgb 2", "x"),
            ("rgb 2", "rgb 2"),
        ],
    )?;
    refused(
        rt,
        alloc,
        &[
            "+", "-", "*", "/", "=", "!=", "<", "<=", ">", ">=", "&", "|",
        ],
        &[
            ("\"a\"", "2"),
            ("\"a\"", "x"),
            ("\"a\"", "rgb 2"),
            ("\"a\"", "\"a\""),
            ("2", "\"a\""),
            ("x", "\"a\""),
            ("rgb 2", "\"a\""),
        ],
    )
}

pub fn all(rt: &impl Abort, alloc: Global) -> Result<(), AllocError> {
    vectors(rt, alloc)?;
    vectors_without_a_value(rt, alloc)?;
    between_angle_brackets(rt, alloc)?;
    calls_of_vectors(rt, alloc)?;
    colours(rt, alloc)?;
    colours_and_numbers(rt, alloc)?;
    colours_without_a_value(rt, alloc)?;
    sums_of_each_pair(rt, alloc)?;
    products_of_each_pair(rt, alloc)?;
    kinds_that_signs_refuse(rt, alloc)?;
    Ok(())
}
