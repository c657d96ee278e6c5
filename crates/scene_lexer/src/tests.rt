// Texts with their tokens or their fault, by hand from the rules.
use crate::{Kind, LexFault, Place, Token, lex};
use std::alloc::{AllocError, Global};
use std::process::Abort;
use std::test::Fail;

/// A token as what it is, from where to where, and its line.
fn shown(alloc: Global, token: &Token) -> Result<String, AllocError> {
    let at = token.place.at;
    let to = token.to;
    let line = token.place.line;
    match &token.kind {
        Kind::Word(name) => {
            let word = str::from_utf8(name.bytes()).unwrap_or("?");
            format!(in alloc; "{word}@{at}-{to}:{line} ")
        }
        Kind::Number(value) => {
            let raw = value.raw();
            format!(in alloc; "#{raw}@{at}-{to}:{line} ")
        }
        Kind::Text(text) => {
            let bytes = text.bytes();
            format!(in alloc; "t{bytes:?}@{at}-{to}:{line} ")
        }
        Kind::Sign(code) => format!(in alloc; "s{code}@{at}-{to}:{line} "),
    }
}

/// A fault by its number and place.
fn fault_shown(alloc: Global, number: u8, place: Place) -> Result<String, AllocError> {
    let file = place.file;
    let at = place.at;
    let line = place.line;
    format!(in alloc; "fault {number} in {file}@{at}:{line}")
}

/// The tokens of a text one after another, each as its copy, or the text's fault.
fn outcome(alloc: Global, text: &[u8]) -> Result<String, AllocError> {
    if text.len() > 1000 {
        return String::from_str(alloc, "too long for this table");
    }
    match lex(alloc, 7, text) {
        Ok(tokens) => {
            let mut all = String::new(alloc);
            for token in &tokens {
                let copy = token.copy(alloc)?;
                all.push_str(shown(alloc, &copy)?.as_str())?;
            }
            Ok(all)
        }
        Err(LexFault::BadByte(place)) => fault_shown(alloc, 1, place),
        Err(LexFault::OpenComment(place)) => fault_shown(alloc, 2, place),
        Err(LexFault::OpenString(place)) => fault_shown(alloc, 3, place),
        Err(LexFault::LongName(place)) => fault_shown(alloc, 4, place),
        Err(LexFault::NumberRange(place)) => fault_shown(alloc, 5, place),
        Err(LexFault::NoMemory) => String::from_str(alloc, "no memory"),
    }
}

/// Each text of the table has the outcome beside it.
fn agree(rt: &impl Abort, alloc: Global, cases: &[(&[u8], &str)]) -> Result<(), AllocError> {
    for (text, want) in cases {
        let found = outcome(alloc, text)?;
        assert_eq!(rt; found.as_str(), *want);
    }
    Ok(())
}

fn white_space_and_marks(rt: &impl Abort, alloc: Global) -> Result<(), AllocError> {
    agree(
        rt,
        alloc,
        &[
            (b"", ""),
            (b" \t\r\n\x0b\x0c", ""),
            (b"a\nb\r\n\nc\rd", "a@0-1:1 b@2-3:2 c@6-7:4 d@8-9:4 "),
            (b"\xef\xbb\xbfa", "a@3-4:1 "),
            (b"\xef\xbb\xbf", ""),
            (b"\xef\xbb\xbf\xef\xbb\xbfa", "fault 1 in 7@3:1"),
            (b"a \xef\xbb\xbf", "fault 1 in 7@2:1"),
            (b"\xef\xbb", "fault 1 in 7@0:1"),
        ],
    )
}

fn words(rt: &impl Abort, alloc: Global) -> Result<(), AllocError> {
    agree(
        rt,
        alloc,
        &[
            (b"a", "a@0-1:1 "),
            (b"_a9 B", "_a9@0-3:1 B@4-5:1 "),
            (
                b"aaaaaaaaaabbbbbbbbbbccccccccccdddddddddd",
                "aaaaaaaaaabbbbbbbbbbccccccccccdddddddddd@0-40:1 ",
            ),
            (
                b"aaaaaaaaaabbbbbbbbbbccccccccccdddddddddde",
                "fault 4 in 7@0:1",
            ),
            (b"x \n9a", "x@0-1:1 #589824@3-4:2 a@4-5:2 "),
        ],
    )
}

fn bytes_that_begin_nothing(rt: &impl Abort, alloc: Global) -> Result<(), AllocError> {
    agree(
        rt,
        alloc,
        &[
            (b"\n x\x00", "fault 1 in 7@3:2"),
            (b"\x80", "fault 1 in 7@0:1"),
            (b"a%", "fault 1 in 7@1:1"),
            (b"a'b'", "fault 1 in 7@1:1"),
            (b"\\", "fault 1 in 7@0:1"),
            (b"@", "fault 1 in 7@0:1"),
            (b"a$", "fault 1 in 7@1:1"),
            (b"2^3", "fault 1 in 7@1:1"),
            (b"~", "fault 1 in 7@0:1"),
            (b"`", "fault 1 in 7@0:1"),
            (b"% 1e99", "fault 1 in 7@0:1"),
            (b"1e99 %", "fault 5 in 7@0:1"),
            (b"1 \" %", "fault 3 in 7@2:1"),
        ],
    )
}

fn numbers(rt: &impl Abort, alloc: Global) -> Result<(), AllocError> {
    agree(
        rt,
        alloc,
        &[
            (b"1", "#65536@0-1:1 "),
            (b"0.5", "#32768@0-3:1 "),
            (b".5", "#32768@0-2:1 "),
            (b"5.", "#327680@0-1:1 s46@1-2:1 "),
            (b".", "s46@0-1:1 "),
            (b"..5", "s46@0-1:1 #32768@1-3:1 "),
            (b"1..2", "#65536@0-1:1 s46@1-2:1 #13107@2-4:1 "),
            (b"1.2.3", "#78643@0-3:1 #19661@3-5:1 "),
            (b"-1", "s45@0-1:1 #65536@1-2:1 "),
            (b"12a", "#786432@0-2:1 a@2-3:1 "),
            (b"1.5e3", "#98304000@0-5:1 "),
            (b"1.e3", "#65536@0-1:1 s46@1-2:1 e3@2-4:1 "),
            (b"1e", "#65536@0-1:1 e@1-2:1 "),
            (b"1e+", "#65536@0-1:1 e@1-2:1 s43@2-3:1 "),
            (
                b"1e--1",
                "#65536@0-1:1 e@1-2:1 s45@2-3:1 s45@3-4:1 #65536@4-5:1 ",
            ),
            (b"1e5e5", "#6553600000@0-3:1 e5@3-5:1 "),
            (b"1.25E+2", "#8192000@0-7:1 "),
            (b"7E-1x", "#45875@0-4:1 x@4-5:1 "),
            (b"e5", "e5@0-2:1 "),
            (b".e5", "s46@0-1:1 e5@1-3:1 "),
            (b"1e-30", "#0@0-5:1 "),
            (b"1e-31", "fault 5 in 7@0:1"),
        ],
    )
}

fn numbers_near_their_bounds(rt: &impl Abort, alloc: Global) -> Result<(), AllocError> {
    agree(
        rt,
        alloc,
        &[
            (b".5e-29", "#0@0-6:1 "),
            (b".5e-30", "fault 5 in 7@0:1"),
            (b"0e30", "#0@0-4:1 "),
            (b"0e31", "fault 5 in 7@0:1"),
            (b"1e9", "#65536000000000@0-3:1 "),
            (b"3e9", "fault 5 in 7@0:1"),
            (b"4e15", "fault 5 in 7@0:1"),
            (b"2147483647.999992370605468", "#140737488355327@0-26:1 "),
            (b"2147483647.999992370605469", "fault 5 in 7@0:1"),
            (b"2147483648", "fault 5 in 7@0:1"),
            (
                b"0.00000762939453125 0.00000762939453124",
                "#1@0-19:1 #0@20-39:1 ",
            ),
            (b"7.62939453125e-6", "#1@0-16:1 "),
            (b"3.14159265358979323846264338327", "#205887@0-31:1 "),
            (
                b"000000000000000000000000000001e9",
                "#65536000000000@0-32:1 ",
            ),
            (b"0000000000000000000000000000001", "fault 5 in 7@0:1"),
            (b"a 0.000000000000000000000000000001", "fault 5 in 7@2:1"),
            (b"123456789012345678901234567890e-30", "#8091@0-34:1 "),
            (
                b"12345678901234567890123456789.0e-20",
                "#8090864124713@0-35:1 ",
            ),
            (
                b"999999999999999999999999999999e-21",
                "#65536000000000@0-34:1 ",
            ),
            (b"999999999999999999999999999999e-20", "fault 5 in 7@0:1"),
            (
                b"1e0000000000000000000000000000000000000001",
                "#655360@0-42:1 ",
            ),
            (b"1e99999999999999999999999", "fault 5 in 7@0:1"),
            (b"1e-99999999999999999999999", "fault 5 in 7@0:1"),
        ],
    )
}

fn signs(rt: &impl Abort, alloc: Global) -> Result<(), AllocError> {
    agree(
        rt,
        alloc,
        &[
            (
                b"{}()<>[],;:?.+-*/=!&|#",
                "s123@0-1:1 s125@1-2:1 s40@2-3:1 s41@3-4:1 s60@4-5:1 s62@5-6:1 s91@6-7:1 s93@7-8:1 \
                s44@8-9:1 s59@9-10:1 s58@10-11:1 s63@11-12:1 s46@12-13:1 s43@13-14:1 s45@14-15:1 \
                s42@15-16:1 s47@16-17:1 s61@17-18:1 s33@18-19:1 s38@19-20:1 s124@20-21:1 s35@21-22:1 ",
            ),
            (b"<=>", "s128@0-2:1 s62@2-3:1 "),
            (b"!!=", "s33@0-1:1 s130@1-3:1 "),
            (b">=<=!=", "s129@0-2:1 s128@2-4:1 s130@4-6:1 "),
            (b"<==", "s128@0-2:1 s61@2-3:1 "),
            (b"< =", "s60@0-1:1 s61@2-3:1 "),
            (b"a<=b", "a@0-1:1 s128@1-3:1 b@3-4:1 "),
        ],
    )
}

fn comments(rt: &impl Abort, alloc: Global) -> Result<(), AllocError> {
    agree(
        rt,
        alloc,
        &[
            (b"/", "s47@0-1:1 "),
            (b"/ /", "s47@0-1:1 s47@2-3:1 "),
            (b"*/", "s42@0-1:1 s47@1-2:1 "),
            (b"//", ""),
            (b"a//", "a@0-1:1 "),
            (b"// /* \nx", "x@7-8:2 "),
            (b"a // b\r\nc", "a@0-1:1 c@8-9:2 "),
            (b"/**/", ""),
            (b"/**/a", "a@4-5:1 "),
            (b"/***/c", "c@5-6:1 "),
            (b"/*/", "fault 2 in 7@0:1"),
            (b"/*/ */b", "b@6-7:1 "),
            (b"/*/*/**/", "fault 2 in 7@0:1"),
            (b"/*/**/*/a", "a@8-9:1 "),
            (b"/* /* */", "fault 2 in 7@0:1"),
            (b"/*\n\n*/a", "a@6-7:3 "),
            (b"\n/* x", "fault 2 in 7@1:2"),
            (b"a /* \" // */ b", "a@0-1:1 b@13-14:1 "),
            (b"/* \x80\x00 */", ""),
        ],
    )
}

fn texts(rt: &impl Abort, alloc: Global) -> Result<(), AllocError> {
    agree(
        rt,
        alloc,
        &[
            (b"\"\"", "t[]@0-2:1 "),
            (b"\"abc\"", "t[97, 98, 99]@0-5:1 "),
            (b"\"\\\\\"", "t[92]@0-4:1 "),
            (b"\"\\\"\"", "t[34]@0-4:1 "),
            (b"\"\\q\"", "t[92, 113]@0-4:1 "),
            (b"\"\\u00\"", "t[92, 117, 48, 48]@0-6:1 "),
            (
                b"\"\\'\\a\\b\\f\\n\\r\\t\\v\"",
                "t[39, 7, 8, 12, 10, 13, 9, 11]@0-18:1 ",
            ),
            (b"\"a\nb\" c", "t[97, 10, 98]@0-5:1 c@6-7:2 "),
            (b"\"\\\n\"x", "t[92, 10]@0-4:1 x@4-5:2 "),
            (
                b"\"a\"b\"/* // \"",
                "t[97]@0-3:1 b@3-4:1 t[47, 42, 32, 47, 47, 32]@4-12:1 ",
            ),
            (b"\"\x80\x00\"", "t[128, 0]@0-4:1 "),
            (b" \n\"", "fault 3 in 7@2:2"),
            (b"\"abc\\\"", "fault 3 in 7@0:1"),
        ],
    )
}

#[test]
fn texts_have_their_tokens(rt: HostRuntime) -> Result<(), Fail> {
    white_space_and_marks(&rt, rt.alloc())?;
    words(&rt, rt.alloc())?;
    bytes_that_begin_nothing(&rt, rt.alloc())?;
    numbers(&rt, rt.alloc())?;
    numbers_near_their_bounds(&rt, rt.alloc())?;
    signs(&rt, rt.alloc())?;
    comments(&rt, rt.alloc())?;
    texts(&rt, rt.alloc())?;
    Ok(())
}
