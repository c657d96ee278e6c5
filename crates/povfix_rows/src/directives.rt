// Scenes with directives: what they say, and where they stop.
use crate::rig::{Left, rendered, shown, tried};
use std::alloc::{AllocError, Global};
use std::process::Abort;
use std::test::Fail;
use std::thread::Threads;

const WORDS: [&str; 3] = ["+Ia.pov", "+W1", "+H1"];

/// A loop, a macro that changes its caller's name, and a loop that counts down.
const COUNTED: &[u8] = b"#declare I = 0; #while (I < 3) #declare I = I + 1; #end
#macro Inc(A) #declare A = A + 2; #end Inc(I)
#for (J, 3, 1, -1) #debug str(J,0,0) #end #debug str(I,0,0)";

/// A macro that calls itself one time fewer each time, two depths a call.
const RECURSIVE: &[u8] = b"#macro R(N) #if (N > 0) R(N-1) #end #end R(31)";

/// Texts, what they say, and the one pixel of their picture.
const SAYING: [(&[u8], &[u8], [u8; 3]); 14] = [
    (COUNTED, b"3215", [0, 0, 0]),
    (RECURSIVE, b"", [0, 0, 0]),
    (
        b"#declare T = version; #version T; #debug str(T,0,1)",
        b"3.7",
        [0, 0, 0],
    ),
    (
        b"#debug \"a\" #render \"b\\n\" #warning \"c\" #statistics \"d\"",
        b"ab\ncd",
        [0, 0, 0],
    ),
    (
        b"#declare C = rgb <1,0,0>; background { C }",
        b"",
        [255, 0, 0],
    ),
    (
        b"#declare C = <1,0,0>; background { rgb C + y }",
        b"",
        [255, 255, 0],
    ),
    (
        b"#macro Sky(A) background { rgb A } #end Sky(z) #debug \"x\"",
        b"x",
        [0, 0, 255],
    ),
    (
        b"#if (clock = 0) background { rgb x } #else background { rgb y } #end",
        b"",
        [255, 0, 0],
    ),
    (
        b"#switch (2) #case (1) #debug \"1\" #range (2,3) #debug \"2\" #case (9) #debug \"9\" #break #else #debug \"e\" #end",
        b"29",
        [0, 0, 0],
    ),
    (
        b"#macro Set() #declare G = 1; #local L = 2; #end Set() #ifdef (G) #debug \"G\" #end #ifdef (L) #debug \"L\" #end",
        b"G",
        [0, 0, 0],
    ),
    (
        b"#declare A = 1; #macro M() #local A = 2; #declare A = 3; #debug str(A,0,0) #end M() #debug str(A,0,0)",
        b"31",
        [0, 0, 0],
    ),
    (
        b"#for (I, 1, 3) sphere { 4*z, I/4 pigment { rgb <0,I/2,0> } finish { ambient 1 diffuse 0 } } #end",
        b"",
        [0, 255, 0],
    ),
    (
        b"#declare N = 0; #while (1) #declare N = N + 1; #if (N = 5) #break #end #end #debug str(N,0,0)",
        b"5",
        [0, 0, 0],
    ),
    (
        b"#include \"b.inc\" #include concat(\"c\", \".inc\") background { Deep }",
        b"bc",
        [0, 0, 255],
    ),
];

/// Texts that other texts include; the last two are at fault themselves.
const INCLUDED: [(&str, &[u8]); 5] = [
    ("b.inc", b"#debug \"b\" #declare Deep = rgb z;"),
    ("lib/c.inc", b"#debug \"c\""),
    ("open.inc", b"\n/* open"),
    ("bad.inc", b"\n\nfoo #debug \"x\""),
    ("deep.inc", b"#include \"deep.inc\""),
];

/// Texts that are refused, the fault, and all that is said: messages up to it, and its line.
const REFUSED: [(&[u8], &str, &[u8]); 24] = [
    (
        b"#include \"open.inc\"",
        "L2 1@1:2",
        b"scene fault L2 at open.inc:2\n",
    ),
    (
        b"#include \"none.inc\"",
        "absent none.inc",
        b"absent none.inc\n",
    ),
    (
        b"#error \"stop\"",
        "U6 0@7:1",
        b"scene fault U6 at a.pov:1 stop\n",
    ),
    (b"#error \"\"", "U6 0@7:1", b"scene fault U6 at a.pov:1 \n"),
    (
        b"#macro R(N) #if (N > 0) R(N-1) #end #end R(32)",
        "limit 3 0@24:1",
        b"limit 3 at a.pov:1\n",
    ),
    (b"#end", "D3 0@0:1", b"scene fault D3 at a.pov:1\n"),
    (b"#if (1)", "D2 0@0:1", b"scene fault D2 at a.pov:1\n"),
    (b"#frob", "D1 0@0:1", b"scene fault D1 at a.pov:1\n"),
    (
        b"#for (I,0,1,0) #end",
        "D7 0@1:1",
        b"scene fault D7 at a.pov:1\n",
    ),
    (
        b"#macro M(A) #end M(1,2)",
        "D6 0@17:1",
        b"scene fault D6 at a.pov:1\n",
    ),
    (
        b"#declare x = 1;",
        "D5 0@9:1",
        b"scene fault D5 at a.pov:1\n",
    ),
    (b"#declare", "D4 0@8:1", b"scene fault D4 at a.pov:1\n"),
    (
        b"#declare A = 1",
        "D4 0@14:1",
        b"scene fault D4 at a.pov:1\n",
    ),
    (
        b"#debug \"a\"\n#if (1/0) #end",
        "E4 0@17:2",
        b"ascene fault E4 at a.pov:2\n",
    ),
    (
        b"#debug \"a\" #if (Foo) #end",
        "E2 0@16:1",
        b"ascene fault E2 at a.pov:1\n",
    ),
    (
        b"#debug \"a\" #if () #end",
        "E1 0@0:1",
        b"ascene fault E1 at a.pov:1\n",
    ),
    (b"#debug x", "E3 0@7:1", b"scene fault E3 at a.pov:1\n"),
    (
        b"#debug \"a\" #debug str(3000000000,0,0)",
        "L5 0@22:1",
        b"scene fault L5 at a.pov:1\n",
    ),
    (
        b"#debug \"a\" x",
        "P2 0@11:1",
        b"ascene fault P2 at a.pov:1\n",
    ),
    (
        b"#debug \"a\"\n#error \"b\"",
        "U6 0@18:2",
        b"ascene fault U6 at a.pov:2 b\n",
    ),
    (
        b"#include \"b.inc\"\nbackground { rgb 300*Deep }",
        "P3 0@30:2",
        b"bscene fault P3 at a.pov:2\n",
    ),
    (
        b"#include \"b.inc\" #include \"open.inc\"",
        "L2 2@1:2",
        b"bscene fault L2 at open.inc:2\n",
    ),
    (
        b"#include \"bad.inc\" background { rgb 1 }",
        "P2 1@2:3",
        b"xscene fault P2 at bad.inc:3\n",
    ),
    (
        b"#debug \"a\" #include \"deep.inc\"",
        "limit 3 1@0:1",
        b"alimit 3 at deep.inc:1\n",
    ),
];

/// Runs the words over a scene among the texts that it may include.
fn among(
    rt: &(impl Threads + Sync),
    alloc: Global,
    words: &[&str],
    scene: &[u8],
) -> Result<Left, AllocError> {
    let [blue, library, open, bad, deep] = INCLUDED;
    rendered(
        rt,
        alloc,
        words,
        &[blue, library, open, bad, deep, ("a.pov", scene)],
    )
}

fn are_said(
    rt: &(impl Threads + Sync + Abort),
    alloc: Global,
    rows: &[(&[u8], &[u8], [u8; 3])],
) -> Result<(), AllocError> {
    for (text, said, pixel) in rows {
        let left = among(
            rt,
            alloc,
            &["+Ia.pov", "+W1", "+H1", "+Lnone", "+Llib"],
            text,
        )?;
        assert_eq!(rt; left.told.bytes(), *said);
        assert_eq!(rt; left.outcome.status, 0);
        let file = left.outcome.shelf.contents(b"a.ppm");
        assert_eq!(rt; file.len(), 14);
        assert!(rt; file.ends_with(pixel));
    }
    Ok(())
}

#[test]
fn directives_are_carried_out(rt: HostRuntime) -> Result<(), Fail> {
    are_said(&rt, rt.alloc(), &SAYING)?;
    Ok(())
}

fn are_refused(
    rt: &(impl Threads + Sync + Abort),
    alloc: Global,
    rows: &[(&[u8], &str, &[u8])],
) -> Result<(), AllocError> {
    for (text, fault, said) in rows {
        let left = among(rt, alloc, &WORDS, text)?;
        assert_eq!(rt; shown(alloc, &left.outcome.fault)?.as_str(), *fault);
        assert_eq!(rt; left.told.bytes(), *said);
        assert_eq!(rt; left.outcome.finished, 0);
        assert_eq!(rt; left.outcome.shelf.contents(b"a.ppm"), b"".as_slice());
    }
    Ok(())
}

#[test]
fn refused_directives_are_told_behind_their_messages(rt: HostRuntime) -> Result<(), Fail> {
    are_refused(&rt, rt.alloc(), &REFUSED)?;
    Ok(())
}

/// An include is looked for under its own name first, and then under each path in order.
#[test]
fn libraries_are_searched_in_order(rt: HostRuntime) -> Result<(), Fail> {
    let texts: [(&str, &[u8]); 5] = [
        (
            "a.pov",
            b"#include \"b.inc\" #include \"c.inc\" #include \"d.inc\"",
        ),
        ("b.inc", b"#debug \"b\""),
        ("one/b.inc", b"#debug \"x\""),
        ("one/c.inc", b"#debug \"c\""),
        ("two/d.inc", b"#debug \"d\" $"),
    ];
    let words = ["+Ia.pov", "+W1", "+H1", "+Lone", "+Ltwo"];
    let left = rendered(&rt, rt.alloc(), &words, &texts)?;
    assert_eq!(&rt;
        left.told.bytes(),
        b"bcscene fault L1 at two/d.inc:1\n".as_slice()
    );
    let left = rendered(&rt, rt.alloc(), &["+Ia.pov", "+Ltwo"], &texts)?;
    assert_eq!(&rt; left.told.bytes(), b"babsent c.inc\n".as_slice());
    Ok(())
}

/// The messages of each frame stand in order, and the line of a fault behind those of its frame.
#[test]
fn frames_speak_one_after_another(rt: HostRuntime) -> Result<(), Fail> {
    let text =
        b"#debug concat(\"<\", str(frame_number,0,0)) #if (frame_number > 2) #error \"late\" #end #debug \">\"";
    let words = ["+Ia.pov", "+W1", "+H1", "+KFF2"];
    let left = rendered(&rt, rt.alloc(), &words, &[("a.pov", text)])?;
    assert_eq!(&rt; left.outcome.status, 0);
    assert_eq!(&rt; left.told.bytes(), b"<1><2>".as_slice());
    let words = ["+Ia.pov", "+W1", "+H1", "+KFF4"];
    let left = rendered(&rt, rt.alloc(), &words, &[("a.pov", text)])?;
    assert_eq!(&rt; left.outcome.status, 2);
    assert_eq!(&rt; left.outcome.finished, 2);
    assert_eq!(&rt;
        left.told.bytes(),
        b"<1><2><3scene fault U6 at a.pov:1 late\n".as_slice()
    );
    assert_eq!(&rt; left.outcome.shelf.contents(b"a3.ppm"), b"".as_slice());
    Ok(())
}

/// Sinks with room for so many bytes, and the status: the messages are four.
const ROOMS: [(u64, u8); 5] = [(0, 8), (1, 8), (2, 8), (3, 8), (4, 0)];

#[test]
fn messages_need_room(rt: HostRuntime) -> Result<(), Fail> {
    for (room, status) in ROOMS {
        let texts = [("a.pov", COUNTED)];
        let left = tried(&rt, rt.alloc(), &WORDS, &texts, room, None)?;
        assert_eq!(&rt; left.outcome.status, status);
        assert_eq!(&rt; left.outcome.finished, u32::from(status == 0));
        let said: &[u8] = if status == 0 { b"3215" } else { b"" };
        assert_eq!(&rt; left.told.bytes(), said);
    }
    Ok(())
}

/// A sink without room for the messages up to a fault gets no line either, and the fault stays.
#[test]
fn a_fault_stays_where_its_messages_have_no_room(rt: HostRuntime) -> Result<(), Fail> {
    let text: &[u8] = b"#debug \"a long message that has no room at all here\" #frob";
    let left = tried(&rt, rt.alloc(), &WORDS, &[("a.pov", text)], 40, None)?;
    assert_eq!(&rt; left.outcome.status, 2);
    assert_eq!(&rt; left.told.bytes(), b"".as_slice());
    Ok(())
}

/// An include that can't be read: the messages before it are told.
#[test]
fn an_include_that_cannot_be_read_is_told(rt: HostRuntime) -> Result<(), Fail> {
    let texts: [(&str, &[u8]); 2] = [
        ("a.pov", b"#debug \"a\" #include \"b.inc\""),
        ("b.inc", b"/* open"),
    ];
    let left = tried(&rt, rt.alloc(), &WORDS, &texts, 100, Some(2))?;
    assert_eq!(&rt; left.outcome.status, 5);
    assert_eq!(&rt; left.told.bytes(), b"atext fault\n".as_slice());
    Ok(())
}

/// Readings that fail, by their number, what is told, and how many frames are finished. Each frame reads two texts.
const UNREAD: [(u64, &[u8], u32); 6] = [
    (1, b"text fault\n", 0),
    (2, b"<1text fault\n", 0),
    (3, b"<1b>text fault\n", 1),
    (4, b"<1b><2text fault\n", 1),
    (6, b"<1b><2b><3text fault\n", 2),
    (7, b"<1b><2b><3b>", 3),
];

/// A reading that fails in a later frame: the messages of the frames before it are told, and its own up to there.
#[test]
fn a_reading_that_fails_late_is_told(rt: HostRuntime) -> Result<(), Fail> {
    let texts: [(&str, &[u8]); 2] = [
        (
            "a.pov",
            b"#debug concat(\"<\", str(frame_number,0,0)) #include \"b.inc\" #debug \">\"",
        ),
        ("b.inc", b"#debug \"b\""),
    ];
    let words = ["+Ia.pov", "+W1", "+H1", "+KFF3"];
    for (reading, said, finished) in UNREAD {
        let left = tried(&rt, rt.alloc(), &words, &texts, 100, Some(reading))?;
        assert_eq!(&rt; left.told.bytes(), said);
        assert_eq!(&rt; left.outcome.finished, finished);
        assert_eq!(&rt; left.outcome.status, if finished < 3 { 5 } else { 0 });
    }
    Ok(())
}
