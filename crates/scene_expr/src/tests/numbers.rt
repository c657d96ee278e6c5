// Numbers: their operators, calls and words.
use super::agree;
use crate::Level;
use std::alloc::{AllocError, Global};
use std::process::Abort;

/// Operators between numbers, from left to right, `*` and `/` first.
fn numbers_in_chains(rt: &impl Abort, alloc: Global) -> Result<(), AllocError> {
    agree(
        rt,
        alloc,
        Level::Choice,
        &[
            (b"1/3", "21845 ->3"),
            (b"-7/2", "-229376 ->4"),
            (b"1-2-3", "-262144 ->5"),
            (b"12/2/3", "131072 ->5"),
            (b"7/2*2", "458752 ->5"),
            (b"2+3*4", "917504 ->5"),
            (b"2*3-4/2", "262144 ->7"),
            (b"(2+3)*4", "1310720 ->7"),
            (b"2--3", "327680 ->4"),
            (b"2-+3", "-65536 ->4"),
            (b"2*-3", "-393216 ->4"),
            (b"--3", "196608 ->3"),
            (b"1-2*3-4", "-589824 ->7"),
            (b"-1/3", "-21845 ->4"),
            (b"1/-3", "-21845 ->4"),
            (b"2/3", "43691 ->3"),
            (b"-2/3", "-43691 ->4"),
            (b"0.5*0.0000152587890625", "1 ->3"),
            (b"-0.5*0.0000152587890625", "0 ->4"),
            (b"-0.0000152587890625/2", "0 ->4"),
            (b"0.0000152587890625/-2", "0 ->4"),
            (b"-0.0000152587890625/-2", "1 ->5"),
            (b"0.1*0.1", "655 ->3"),
            (b"2147483646+1", "140737488289792 ->3"),
            (b"1/0.0000152587890625", "4294967296 ->3"),
            (b"1 2", "65536 ->1"),
            (b"1 ) 2", "65536 ->1"),
        ],
    )
}

/// Sums, products and quotients out of range, and divisors of 0, at their operator.
fn numbers_without_a_value(rt: &impl Abort, alloc: Global) -> Result<(), AllocError> {
    agree(
        rt,
        alloc,
        Level::Choice,
        &[
            (b"1/0", "ZeroDivisor in 7@1:1"),
            (b"0/0", "ZeroDivisor in 7@1:1"),
            (b"1/(2-2)", "ZeroDivisor in 7@1:1"),
            (b"1/2/0/0", "ZeroDivisor in 7@3:1"),
            (b"(1-1)/(1-1)", "ZeroDivisor in 7@5:1"),
            (b"2147483647+1", "Range in 7@10:1"),
            (b"-2147483647-1", "Range in 7@11:1"),
            (b"1000000000+1000000000+1000000000", "Range in 7@21:1"),
            (b"100000*100000", "Range in 7@6:1"),
            (b"40000/0.0000152587890625", "Range in 7@5:1"),
            (b"1*2147483647*2", "Range in 7@12:1"),
            (b"-2147483647-0.99999", "-140737488355327 ->4"),
            (b"2147483647.5 + 0.5", "Range in 7@13:1"),
            (b"1 - 2147483646/2", "-70368744046592 ->5"),
        ],
    )
}

/// Comparisons stand one to a side of `&` and `|`, which are of one level.
fn comparisons_and_truths(rt: &impl Abort, alloc: Global) -> Result<(), AllocError> {
    agree(
        rt,
        alloc,
        Level::Choice,
        &[
            (b"1 = 1", "65536 ->3"),
            (b"1 = 2", "0 ->3"),
            (b"1 != 1", "0 ->3"),
            (b"1 != 2", "65536 ->3"),
            (b"1 < 2", "65536 ->3"),
            (b"2 < 2", "0 ->3"),
            (b"2 <= 2", "65536 ->3"),
            (b"2.5 <= 2", "0 ->3"),
            (b"2 > 1", "65536 ->3"),
            (b"2 > 2", "0 ->3"),
            (b"2 >= 2", "65536 ->3"),
            (b"-3 >= -2", "0 ->5"),
            (b"1 < 2 < 3", "65536 ->3"),
            (b"3 > 2 = 1", "65536 ->3"),
            (b"(3 > 2) = 1", "65536 ->7"),
            (b"1 + 1 = 2", "65536 ->5"),
            (b"1 & 0", "0 ->3"),
            (b"0.5 & -2", "65536 ->4"),
            (b"0 | 0", "0 ->3"),
            (b"0 | -0.5", "65536 ->4"),
            (b"1 | 0 & 0", "0 ->5"),
            (b"0 & 1 | 1", "65536 ->5"),
            (b"0 = 1 & 0", "0 ->5"),
            (b"1 = 2 | 2 = 2", "65536 ->7"),
            (b"1 = 2 & 1", "0 ->5"),
            (b"2 | 0 > 1", "65536 ->5"),
            (b"!0.5", "0 ->2"),
            (b"!0", "65536 ->2"),
            (b"!!5", "65536 ->3"),
            (b"!1 = 0", "65536 ->4"),
        ],
    )
}

/// A choice takes its second or third part, and all parts are evaluated.
fn choices(rt: &impl Abort, alloc: Global) -> Result<(), AllocError> {
    agree(
        rt,
        alloc,
        Level::Choice,
        &[
            (b"2 < 3 ? 4 : 5", "262144 ->7"),
            (b"3 < 2 ? 4 : 5", "327680 ->7"),
            (b"-0.5 ? 2 : 3", "131072 ->6"),
            (b"0.00001 ? 2 : 3", "131072 ->5"),
            (b"0.000001 ? 2 : 3", "196608 ->5"),
            (b"0 ? 1 : 0 ? 2 : 3", "196608 ->9"),
            (b"0 ? 1 : 1 ? 2 : 3", "131072 ->9"),
            (b"1 ? 2 : 1 ? 3 : 4", "131072 ->9"),
            (b"1 ? 0 ? 5 : 6 : 7", "393216 ->9"),
            (b"1 ? 2 : 3 + 1", "131072 ->7"),
            (b"(1 ? 2 : 3) + 1", "196608 ->9"),
            (b"1 ? \"a\" : x", "'a' ->5"),
            (b"0 ? \"a\" : x", "<65536, 0, 0> ->5"),
            (b"1 ? 2 : 3 : 4", "131072 ->5"),
            (b"1 ? 2 : 1/0", "ZeroDivisor in 7@9:1"),
            (b"0 ? 1/0 : Foo", "ZeroDivisor in 7@5:1"),
            (b"1 ? 2", "Expected in 7@5:1"),
            (b"1 ? 2 :", "Expected in 7@7:1"),
            (b"1 ?", "Expected in 7@3:1"),
            (b"1 ? : 2", "Expected in 7@4:1"),
            (b"1 ? 2, 3", "Expected in 7@5:1"),
            (b"x ? 1 : 2", "Kind in 7@2:1"),
            (b"\"a\" ? 1 : 2", "Kind in 7@4:1"),
            (b"rgb 1 ? 1 : 2", "Kind in 7@6:1"),
            (b"x ? 1", "Expected in 7@5:1"),
            (b"x ? 1 : Foo", "UnknownName in 7@8:1"),
            (b"\"a\" ? 1/0 : 2", "ZeroDivisor in 7@7:1"),
            (b"x = 1 ? 2 : 3", "Kind in 7@2:1"),
            (b"1 ? x ? 1 : 2 : 3", "Kind in 7@6:1"),
        ],
    )
}

/// Calls of one number.
fn calls_of_numbers(rt: &impl Abort, alloc: Global) -> Result<(), AllocError> {
    agree(
        rt,
        alloc,
        Level::Choice,
        &[
            (b"abs(-3.5)", "229376 ->5"),
            (b"abs(3)", "196608 ->4"),
            (b"ceil(1.5)", "131072 ->4"),
            (b"ceil(-1.5)", "-65536 ->5"),
            (b"ceil(-0.5)", "0 ->5"),
            (b"ceil(2)", "131072 ->4"),
            (b"ceil(0.0000152587890625)", "65536 ->4"),
            (b"floor(1.5)", "65536 ->4"),
            (b"floor(-1.5)", "-131072 ->5"),
            (b"floor(-0.0000152587890625)", "-65536 ->5"),
            (b"floor(-2)", "-131072 ->5"),
            (b"ceil(2147483647)", "140737488289792 ->4"),
            (b"ceil(2147483647.5)", "Range in 7@0:1"),
            (b"ceil(-2147483647.5)", "-140737488289792 ->5"),
            (b"floor(-2147483647)", "-140737488289792 ->5"),
            (b"floor(-2147483647.5)", "Range in 7@0:1"),
            (b"floor(2147483647.5)", "140737488289792 ->4"),
            (b"int(1.5)", "65536 ->4"),
            (b"int(-1.5)", "-65536 ->5"),
            (b"int(-0.5)", "0 ->5"),
            (b"int(-2147483647.5)", "-140737488289792 ->5"),
            (b"int(2147483647.9)", "140737488289792 ->4"),
            (b"sqrt(2)", "92681 ->4"),
            (b"sqrt(0)", "0 ->4"),
            (b"sqrt(4)", "131072 ->4"),
            (b"sqrt(0.5)", "46340 ->4"),
            (b"sqrt(2147483647)", "3037000499 ->4"),
            (b"sqrt(-1)", "Range in 7@0:1"),
            (b"1 + sqrt(-0.0000152587890625)", "Range in 7@4:1"),
            (b"sqrt(\"a\")", "Kind in 7@0:1"),
        ],
    )
}

/// Sines, cosines and tangents of radians, and angles as radians and degrees.
fn calls_of_angles(rt: &impl Abort, alloc: Global) -> Result<(), AllocError> {
    agree(
        rt,
        alloc,
        Level::Choice,
        &[
            (b"sin(0)", "0 ->4"),
            (b"cos(0)", "65536 ->4"),
            (b"tan(0)", "0 ->4"),
            (b"sin(pi/2)", "65536 ->6"),
            (b"cos(pi/2)", "0 ->6"),
            (b"sin(pi)", "0 ->4"),
            (b"cos(pi)", "-65536 ->4"),
            (b"sin(1)", "55147 ->4"),
            (b"cos(1)", "35409 ->4"),
            (b"tan(1)", "102068 ->4"),
            (b"sin(-2)", "-59592 ->5"),
            (b"cos(-2)", "-27273 ->5"),
            (b"tan(-2)", "143197 ->5"),
            (b"sin(1000)", "54190 ->4"),
            (b"cos(4)", "-42837 ->4"),
            (b"sin(5.5)", "-46238 ->4"),
            (b"tan(pi/2)", "ZeroDivisor in 7@0:1"),
            (b"degrees(pi)", "11796456 ->4"),
            (b"degrees(1)", "3754936 ->4"),
            (b"degrees(-0.5)", "-1877468 ->5"),
            (b"radians(180)", "205887 ->4"),
            (b"radians(-90)", "-102944 ->5"),
            (b"radians(2147483647)", "2456332551644 ->4"),
            (b"degrees(2147483647)", "Range in 7@0:1"),
            (b"sin(2147483647)", "Range in 7@0:1"),
            (b"cos(-2147483647)", "Range in 7@0:1"),
            (b"2 * tan(40000000)", "Range in 7@4:1"),
            (b"sin(37000000)", "-40362 ->4"),
            (b"sin(x)", "Kind in 7@0:1"),
            (b"radians(\"a\")", "Kind in 7@0:1"),
        ],
    )
}

/// Calls of two numbers, and of two and more.
fn calls_of_more_numbers(rt: &impl Abort, alloc: Global) -> Result<(), AllocError> {
    agree(
        rt,
        alloc,
        Level::Choice,
        &[
            (b"mod(7,2)", "65536 ->6"),
            (b"mod(-7,2)", "-65536 ->7"),
            (b"mod(7,-2)", "65536 ->7"),
            (b"mod(-7,-2)", "-65536 ->8"),
            (b"mod(5.5,2)", "98304 ->6"),
            (b"mod(-1,3)", "-65536 ->7"),
            (b"mod(6,3)", "0 ->6"),
            (b"div(7,2)", "196608 ->6"),
            (b"div(-7,2)", "-196608 ->7"),
            (b"div(7,-2)", "-196608 ->7"),
            (b"div(-7,-2)", "196608 ->8"),
            (b"div(1,3)", "0 ->6"),
            (b"div(2,0.3)", "393216 ->6"),
            (b"div(-0.5,1)", "0 ->7"),
            (b"mod(1,0)", "ZeroDivisor in 7@0:1"),
            (b"div(1,0)", "ZeroDivisor in 7@0:1"),
            (b"div(2147483647,0.5)", "Range in 7@0:1"),
            (b"div(2147483646,2)", "70368744112128 ->6"),
            (b"pow(2,10)", "67108864 ->6"),
            (b"pow(2,0)", "65536 ->6"),
            (b"pow(0,0)", "65536 ->6"),
            (b"pow(0,5)", "0 ->6"),
            (b"pow(-2,3)", "-524288 ->7"),
            (b"pow(0.5,2)", "16384 ->6"),
            (b"pow(1.1,3)", "87229 ->6"),
            (b"pow(0.5,17)", "1 ->6"),
            (b"pow(1,65535)", "65536 ->6"),
            (b"pow(2,30)", "70368744177664 ->6"),
            (b"pow(2,31)", "Range in 7@0:1"),
            (b"pow(-2,31)", "Range in 7@0:1"),
        ],
    )
}

/// Exponents, least and greatest numbers, and kinds of calls.
fn edges_of_calls(rt: &impl Abort, alloc: Global) -> Result<(), AllocError> {
    agree(
        rt,
        alloc,
        Level::Choice,
        &[
            (b"pow(2,0.5)", "Range in 7@0:1"),
            (b"pow(2,-1)", "Range in 7@0:1"),
            (b"pow(1,65536)", "Range in 7@0:1"),
            (b"pow(x,2)", "Kind in 7@0:1"),
            (b"pow(2,\"a\")", "Kind in 7@0:1"),
            (b"pow(1.0001,65535)", "71180487 ->6"),
            (b"min(3,1,2)", "65536 ->8"),
            (b"max(1,3,2)", "196608 ->8"),
            (b"min(1,1)", "65536 ->6"),
            (b"min(-1,-2)", "-131072 ->8"),
            (b"max(-1,-2)", "-65536 ->8"),
            (b"max(1,2,3,4,5,7,6)", "458752 ->16"),
            (b"min(5,4,3,2,1,0,1)", "0 ->16"),
            (b"min(1)", "Expected in 7@5:1"),
            (b"max()", "Expected in 7@4:1"),
            (b"min(1,x)", "Kind in 7@0:1"),
            (b"max(\"a\",1)", "Kind in 7@0:1"),
            (b"min(1,2,3,4,5,6,rgb 1)", "Kind in 7@0:1"),
            (b"min(1 < 2, 3)", "65536 ->8"),
            (b"max(0 ? 1 : 2, 1 | 1)", "131072 ->12"),
            (b"abs(x)", "Kind in 7@0:1"),
            (b"int(rgb 1)", "Kind in 7@0:1"),
            (b"floor(\"a\")", "Kind in 7@0:1"),
            (b"mod(\"a\",0)", "Kind in 7@0:1"),
            (b"div(1,x)", "Kind in 7@0:1"),
            (b"strlen(1)", "Kind in 7@0:1"),
            (b"strlen(\"a\",\"b\")", "Expected in 7@10:1"),
            (b"concat(\"a\",1)", "Kind in 7@0:1"),
            (b"concat(x)", "Kind in 7@0:1"),
            (b"concat()", "Expected in 7@7:1"),
        ],
    )
}

/// Words that stand for values.
fn value_words(rt: &impl Abort, alloc: Global) -> Result<(), AllocError> {
    agree(
        rt,
        alloc,
        Level::Choice,
        &[
            (b"x", "<65536, 0, 0> ->1"),
            (b"y", "<0, 65536, 0> ->1"),
            (b"z", "<0, 0, 65536> ->1"),
            (b"pi", "205887 ->1"),
            (b"version", "242483 ->1"),
            (b"true", "65536 ->1"),
            (b"on", "65536 ->1"),
            (b"yes", "65536 ->1"),
            (b"false", "0 ->1"),
            (b"off", "0 ->1"),
            (b"no", "0 ->1"),
            (b"clock", "12345 ->1"),
            (b"initial_clock", "-65536 ->1"),
            (b"final_clock", "163840 ->1"),
            (b"frame_number", "196608 ->1"),
            (b"initial_frame", "131072 ->1"),
            (b"final_frame", "140737488289792 ->1"),
            (b"image_width", "20971520 ->1"),
            (b"image_height", "15728640 ->1"),
            (b"image_width/image_height", "87381 ->3"),
            (b"final_frame + 1", "Range in 7@12:1"),
            (b"1 x", "65536 ->1"),
            (b"!false", "65536 ->2"),
            (b"true + true", "131072 ->3"),
            (b"version = 3.7", "65536 ->3"),
            (b"PI", "UnknownName in 7@0:1"),
            (b"True", "UnknownName in 7@0:1"),
            (b"X", "UnknownName in 7@0:1"),
            (b"version2", "UnknownName in 7@0:1"),
        ],
    )
}

pub fn all(rt: &impl Abort, alloc: Global) -> Result<(), AllocError> {
    numbers_in_chains(rt, alloc)?;
    numbers_without_a_value(rt, alloc)?;
    comparisons_and_truths(rt, alloc)?;
    choices(rt, alloc)?;
    calls_of_numbers(rt, alloc)?;
    calls_of_angles(rt, alloc)?;
    calls_of_more_numbers(rt, alloc)?;
    edges_of_calls(rt, alloc)?;
    value_words(rt, alloc)?;
    Ok(())
}
