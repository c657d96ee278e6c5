// Texts, what is at fault first, and where an expression ends.
use super::{agree, agree_from};
use crate::Level;
use std::alloc::{AllocError, Global};
use std::process::Abort;

/// Texts are taken by no operator and no sign before a value.
fn texts(rt: &impl Abort, alloc: Global) -> Result<(), AllocError> {
    agree(
        rt,
        alloc,
        Level::Choice,
        &[
            (b"\"abc\"", "'abc' ->1"),
            (b"\"\"", "'' ->1"),
            (b"(\"a\")", "'a' ->3"),
            (b"\"a\" \"b\"", "'a' ->1"),
            (b"\"a\\\\b\"", "'a\\b' ->1"),
            (b"\"a\" + 1", "Kind in 7@4:1"),
            (b"1 + \"a\"", "Kind in 7@2:1"),
            (b"\"a\" - \"b\"", "Kind in 7@4:1"),
            (b"2 * \"a\"", "Kind in 7@2:1"),
            (b"\"a\" / 0", "Kind in 7@4:1"),
            (b"x + \"a\"", "Kind in 7@2:1"),
            (b"rgb 1 * \"a\"", "Kind in 7@6:1"),
            (b"\"a\" / x", "Kind in 7@4:1"),
            (b"\"a\" = \"a\"", "Kind in 7@4:1"),
            (b"\"a\" != 1", "Kind in 7@4:1"),
            (b"1 < \"a\"", "Kind in 7@2:1"),
            (b"\"a\" & 1", "Kind in 7@4:1"),
            (b"0 | \"a\"", "Kind in 7@2:1"),
            (b"-\"a\"", "Kind in 7@0:1"),
            (b"+\"a\"", "Kind in 7@0:1"),
            (b"!\"a\"", "Kind in 7@0:1"),
            (b"concat(\"a\",\"b\",\"c\")", "'abc' ->8"),
            (b"concat(\"a\")", "'a' ->4"),
            (b"concat(\"\",\"b\",concat(\"c\",\"d\"))", "'bcd' ->13"),
            (b"strlen(\"abc\")", "196608 ->4"),
            (b"strlen(\"\")", "0 ->4"),
            (b"strlen(concat(\"ab\",str(-12,6,0)))", "524288 ->17"),
            (b"chr(65)", "'A' ->4"),
            (b"chr(255)", "[255] ->4"),
            (b"concat(chr(0),chr(200))", "[0, 200] ->12"),
        ],
    )
}

/// `str` with each number of places, with lengths, and with what it refuses.
fn numbers_as_texts(rt: &impl Abort, alloc: Global) -> Result<(), AllocError> {
    agree(
        rt,
        alloc,
        Level::Choice,
        &[
            (b"str(2.5,6,2)", "'  2.50' ->8"),
            (b"str(-1.5,0,0)", "'-2' ->9"),
            (b"str(0.5,0,0)", "'1' ->8"),
            (b"str(-0.4,0,0)", "'-0' ->9"),
            (b"str(0.49,3,0)", "'  0' ->8"),
            (b"str(-2.5,6,1)", "'  -2.5' ->9"),
            (b"str(-2.5,2,3)", "'-2.500' ->9"),
            (
                b"concat(str(2/3,0,0),\"|\",str(2/3,0,1),\"|\",str(2/3,0,2),\"|\",str(2/3,0,3),\"|\",str(2/3,0,4))",
                "'1|0.7|0.67|0.667|0.6667' ->65",
            ),
            (
                b"concat(str(2/3,0,5),\"|\",str(2/3,0,6),\"|\",str(2/3,0,7),\"|\",str(2/3,0,8),\"|\",str(2/3,0,9))",
                "'0.66667|0.666672|0.6666718|0.66667175|0.666671753' ->65",
            ),
            (b"str(1.05,0,1)", "'1.1' ->8"),
            (b"str(9.99999,0,2)", "'10.00' ->8"),
            (b"str(0.01,0,1)", "'0.0' ->8"),
            (b"str(-2147483647.99999,0,9)", "'-2147483647.999984741' ->9"),
            (b"str(7,8,0)", "'       7' ->8"),
            (
                b"str(7,64,0)",
                "'                                                               7' ->8",
            ),
            (b"str(7,65,0)", "Range in 7@0:1"),
            (b"str(7,-1,0)", "Range in 7@0:1"),
            (b"str(7,1.5,0)", "Range in 7@0:1"),
            (b"str(7,0,10)", "Range in 7@0:1"),
            (b"str(7,0,-1)", "Range in 7@0:1"),
            (b"str(7,0,0.5)", "Range in 7@0:1"),
            (b"str(\"a\",1,1)", "Kind in 7@0:1"),
            (b"str(1,x,1)", "Kind in 7@0:1"),
            (b"str(1,1,\"a\")", "Kind in 7@0:1"),
            (b"str(1,2)", "Expected in 7@7:1"),
            (b"str(1,2,3,4)", "Expected in 7@9:1"),
            (b"chr(256)", "Range in 7@0:1"),
            (b"chr(-1)", "Range in 7@0:1"),
            (b"chr(65.5)", "Range in 7@0:1"),
            (b"chr(\"a\")", "Kind in 7@0:1"),
        ],
    )
}

/// Of several faults the first: those of a part before its operator, the left part before the right.
fn first_faults(rt: &impl Abort, alloc: Global) -> Result<(), AllocError> {
    agree(
        rt,
        alloc,
        Level::Choice,
        &[
            (b"Foo", "UnknownName in 7@0:1"),
            (b"1 +", "Expected in 7@3:1"),
            (b"\"a\" + Foo", "UnknownName in 7@6:1"),
            (b"1/Foo + 1/0", "UnknownName in 7@2:1"),
            (b"1/0 + Foo", "ZeroDivisor in 7@1:1"),
            (b"1/(1/0)", "ZeroDivisor in 7@4:1"),
            (b"Foo + 1/0", "UnknownName in 7@0:1"),
            (b"1/0 + 1/0", "ZeroDivisor in 7@1:1"),
            (b"(\"a\" + 1) / 0", "Kind in 7@5:1"),
            (b"1 = 1 | 1/0", "ZeroDivisor in 7@9:1"),
            (b"sqrt(-1", "Expected in 7@7:1"),
            (b"abs(\"a\", 1)", "Expected in 7@7:1"),
            (b"mod(1,0", "Expected in 7@7:1"),
            (b"mod(1,0,2)", "Expected in 7@7:1"),
            (b"chr(256]", "Expected in 7@7:1"),
            (b"abs(x 2)", "Expected in 7@6:1"),
            (b"mod(1)", "Expected in 7@5:1"),
            (b"mod(\"a\")", "Expected in 7@7:1"),
            (b"abs 1", "Expected in 7@4:1"),
            (b"abs", "Expected in 7@3:1"),
            (b"abs(", "Expected in 7@4:1"),
            (b"abs()", "Expected in 7@4:1"),
            (b"abs x", "Expected in 7@4:1"),
            (b"mod(Foo,1/0)", "UnknownName in 7@4:1"),
            (b"div(\"a\"/1,Foo)", "Kind in 7@7:1"),
            (b"mod(\"a\",1/0", "ZeroDivisor in 7@9:1"),
            (b"vdot(1,\"a\"", "Expected in 7@10:1"),
            (b"(1/1", "Expected in 7@4:1"),
            (b"foo(1/0)", "UnknownName in 7@0:1"),
            (b"union", "UnknownName in 7@0:1"),
        ],
    )
}

/// What is missing, at the token that stands in its place.
fn missing_parts(rt: &impl Abort, alloc: Global) -> Result<(), AllocError> {
    agree(
        rt,
        alloc,
        Level::Choice,
        &[
            (b"", "Expected in 0@0:1"),
            (b" // none\n", "Expected in 0@0:1"),
            (b"(", "Expected in 7@1:1"),
            (b"()", "Expected in 7@1:1"),
            (b"(1", "Expected in 7@2:1"),
            (b"(1 2)", "Expected in 7@3:1"),
            (b"(1,2)", "Expected in 7@2:1"),
            (b"((1)", "Expected in 7@4:1"),
            (b")", "Expected in 7@0:1"),
            (b"*2", "Expected in 7@0:1"),
            (b"1 + * 2", "Expected in 7@4:1"),
            (b"1 & & 2", "Expected in 7@4:1"),
            (b"1 =", "Expected in 7@3:1"),
            (b"1 = = 1", "Expected in 7@4:1"),
            (b"1 = <2", "Expected in 7@6:1"),
            (b"=1", "Expected in 7@0:1"),
            (b"#", "Expected in 7@0:1"),
            (b"{", "Expected in 7@0:1"),
            (b", 1", "Expected in 7@0:1"),
            (b"-", "Expected in 7@1:1"),
            (b"!", "Expected in 7@1:1"),
            (b"2 * -", "Expected in 7@5:1"),
            (b".", "Expected in 7@0:1"),
            (b"?", "Expected in 7@0:1"),
            (b"1 + defined(A)", "UnknownName in 7@4:1"),
            (b"(1] + Foo", "Expected in 7@2:1"),
            (b"1\n/\n0", "ZeroDivisor in 7@2:2"),
            (b"1 +\n\n", "Expected in 7@3:1"),
            (b"1\n+ // text\nFoo", "UnknownName in 7@12:3"),
            (b"(\"a\nb\"", "Expected in 7@6:1"),
        ],
    )
}

/// At the level of sums comparisons, truths and choices stand outside.
fn sums(rt: &impl Abort, alloc: Global) -> Result<(), AllocError> {
    agree(
        rt,
        alloc,
        Level::Sum,
        &[
            (b"1 + 2*3", "458752 ->5"),
            (b"1 < 2", "65536 ->1"),
            (b"1 = 2", "65536 ->1"),
            (b"1 & 0", "65536 ->1"),
            (b"2 | Foo", "131072 ->1"),
            (b"1 ? 2 : 3", "65536 ->1"),
            (b"3 ? Foo", "196608 ->1"),
            (b"(1 < 2)", "65536 ->5"),
            (b"(0 ? 1 : 2)*3", "393216 ->9"),
            (b"min(1 < 2, 5)", "65536 ->8"),
            (b"<1,2,3> > 2", "<65536, 131072, 196608> ->7"),
            (b"x = x", "<65536, 0, 0> ->1"),
            (b"rgb 1 - x = 2", "rgbft 0, 65536, 65536, 0, 0 ->4"),
            (b"\"a\" = 1", "'a' ->1"),
            (b"1, 2", "65536 ->1"),
            (b"1 + 2 3", "196608 ->3"),
            (b"1 +", "Expected in 7@3:1"),
            (b"\"a\" + 1", "Kind in 7@4:1"),
            (b"1/0 = 1", "ZeroDivisor in 7@1:1"),
            (b"(1 < 2", "Expected in 7@6:1"),
            (b"Foo < 1", "UnknownName in 7@0:1"),
            (b"", "Expected in 0@0:1"),
        ],
    )
}

/// Expressions that begin at a later token, or behind the last one.
fn later_beginnings(rt: &impl Abort, alloc: Global) -> Result<(), AllocError> {
    agree_from(
        rt,
        alloc,
        &[
            (1, b"1 2 3", "131072 ->2"),
            (2, b"1 + 2", "131072 ->3"),
            (1, b"red 1", "65536 ->2"),
            (3, b"1 + 2", "Expected in 7@5:1"),
            (1, b"1 + 2", "131072 ->3"),
            (1, b"1 - x", "<-65536, 0, 0> ->3"),
            (2, b"x.y", "<0, 65536, 0> ->3"),
            (1, b"x.y", "Expected in 7@1:1"),
            (1, b"sqrt(4)", "262144 ->4"),
            (3, b"sqrt(4)", "Expected in 7@6:1"),
            (2, b"1 = 2\n< 3", "65536 ->5"),
            (0, b"7", "458752 ->1"),
            (1, b"7", "Expected in 7@1:1"),
        ],
    )
}

pub fn all(rt: &impl Abort, alloc: Global) -> Result<(), AllocError> {
    texts(rt, alloc)?;
    numbers_as_texts(rt, alloc)?;
    first_faults(rt, alloc)?;
    missing_parts(rt, alloc)?;
    sums(rt, alloc)?;
    later_beginnings(rt, alloc)?;
    Ok(())
}
