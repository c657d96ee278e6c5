// What fails outside, and texts that are absent or too long.
use crate::rig::{rendered, shown};
use povfix::{FolderTexts, MemTexts, ReadFail, Texts, Traced, run};
use shelf::{MemShelf, MemSink, NoSink};
use std::process::Abort;
use std::test::Fail;

const TEXT: &[u8] = b"sphere { <0,0,4>, 1 pigment { rgb <0,1,0> } finish { ambient 1 diffuse 0 } }";

/// How a reading ends, with how many bytes.
fn ending(read: Result<Option<Vec<u8>>, ReadFail>) -> (&'static str, usize) {
    match read {
        Ok(Some(bytes)) => ("some", bytes.len()),
        Ok(None) => ("none", 0),
        Err(ReadFail::Failed) => ("failed", 0),
        Err(ReadFail::NoMemory) => ("no memory", 0),
    }
}

#[test]
fn texts_are_read_by_their_names(rt: HostRuntime) -> Result<(), Fail> {
    let alloc = rt.alloc();
    let mut texts = MemTexts::new(alloc);
    texts.add(alloc, b"a", b"one")?;
    texts.add(alloc, b"b", b"")?;
    texts.add(alloc, b"a", b"four")?;
    texts.fail_on(4);
    assert_eq!(&rt; ending(texts.read(alloc, b"a")), ("some", 4));
    assert_eq!(&rt; ending(texts.read(alloc, b"b")), ("some", 0));
    assert_eq!(&rt; ending(texts.read(alloc, b"A")), ("none", 0));
    assert_eq!(&rt; ending(texts.read(alloc, b"a")), ("failed", 0));
    assert_eq!(&rt; ending(texts.read(alloc, b"a")), ("some", 4));
    let mut folder = FolderTexts::new(rt);
    assert_eq!(&rt;
        ending(folder.read(alloc, b"no such text.pov")),
        ("none", 0)
    );
    Ok(())
}

/// Storage whose call of this number fails, from 1, and the status: the file is held, written, cut and synced.
const SHELF_CALLS: [(u64, u8); 5] = [(1, 7), (2, 7), (3, 7), (4, 7), (5, 0)];

#[test]
fn failing_storage_is_told(rt: HostRuntime) -> Result<(), Fail> {
    let alloc = rt.alloc();
    for (call, status) in SHELF_CALLS {
        let mut words = Vec::new(alloc);
        for word in ["+Ia.pov", "+W1", "+H1"] {
            words.push(String::from_str(alloc, word)?)?;
        }
        let mut texts = MemTexts::new(alloc);
        texts.add(alloc, b"a.pov", TEXT)?;
        let mut shelf = MemShelf::new(alloc);
        shelf.fail_on(call);
        let mut told = MemSink::with_room(alloc, 100)?;
        let outcome = run(&rt, alloc, &words, &mut texts, shelf, &mut told);
        assert_eq!(&rt; outcome.status, status);
        assert_eq!(&rt; outcome.finished, u32::from(status == 0));
        assert_eq!(&rt; outcome.traced.as_slice(), &[] as &[Traced]);
        let line: &[u8] = if status == 0 { b"" } else { b"shelf fault\n" };
        assert_eq!(&rt; told.bytes(), line);
    }
    Ok(())
}

#[test]
fn a_text_that_cannot_be_read_is_told(rt: HostRuntime) -> Result<(), Fail> {
    let alloc = rt.alloc();
    let mut words = Vec::new(alloc);
    words.push(String::from_str(alloc, "a.pov")?)?;
    let mut texts = MemTexts::new(alloc);
    texts.add(alloc, b"a.pov", TEXT)?;
    texts.fail_on(1);
    let mut told = MemSink::with_room(alloc, 100)?;
    let outcome = run(
        &rt,
        alloc,
        &words,
        &mut texts,
        MemShelf::new(alloc),
        &mut told,
    );
    assert_eq!(&rt; outcome.status, 5);
    assert_eq!(&rt; told.bytes(), b"text fault\n".as_slice());
    Ok(())
}

/// A sink without room for the line leaves the answer as it is.
#[test]
fn a_failing_sink_leaves_the_answer(rt: HostRuntime) -> Result<(), Fail> {
    let alloc = rt.alloc();
    let mut words = Vec::new(alloc);
    words.push(String::from_str(alloc, "a.pov")?)?;
    let mut texts = MemTexts::new(alloc);
    let mut told = MemSink::with_room(alloc, 3)?;
    let outcome = run(
        &rt,
        alloc,
        &words,
        &mut texts,
        MemShelf::new(alloc),
        &mut told,
    );
    assert_eq!(&rt; outcome.status, 4);
    let mut none = NoSink;
    let outcome = run(
        &rt,
        alloc,
        &words,
        &mut texts,
        MemShelf::new(alloc),
        &mut none,
    );
    assert_eq!(&rt; outcome.status, 4);
    Ok(())
}

#[test]
fn absent_texts_are_named(rt: HostRuntime) -> Result<(), Fail> {
    let rows: [(&str, &[u8]); 3] = [
        ("+Ia.pov", b"absent a.pov\n"),
        ("+IA.pov", b"absent A.pov\n"),
        (".pov", b"absent .pov\n"),
    ];
    for (word, line) in rows {
        let left = rendered(&rt, rt.alloc(), &[word, "+W1", "+H1"], &[("b.pov", TEXT)])?;
        assert_eq!(&rt; left.outcome.status, 4);
        assert_eq!(&rt; left.told.bytes(), line);
    }
    Ok(())
}

/// Scene texts are told with their name and line.
#[test]
fn refused_scenes_are_told_with_their_line(rt: HostRuntime) -> Result<(), Fail> {
    let rows: [(&[u8], &[u8]); 3] = [
        (b"sphere { <0,0,4> }", b"scene fault P1 at a.pov:1\n"),
        (b"\n\n$", b"scene fault L1 at a.pov:3\n"),
        (
            b"\nbackground {\nrgb <1,1,257> }",
            b"scene fault P3 at a.pov:3\n",
        ),
    ];
    for (text, line) in rows {
        let left = rendered(&rt, rt.alloc(), &["+Ia.pov"], &[("a.pov", text)])?;
        assert_eq!(&rt; left.told.bytes(), line);
    }
    Ok(())
}

/// The name, eight bytes and the text count at most 16 MiB; what is longer isn't lexed.
#[test]
fn long_texts_are_refused_before_they_are_read(rt: HostRuntime) -> Result<(), Fail> {
    let alloc = rt.alloc();
    let most = (1 << 24) - 8 - 5;
    let rows: [(usize, &str, &[u8]); 2] = [
        (most, "L1 0@0:1", b"scene fault L1 at a.pov:1\n"),
        (most + 1, "limit 4 0@0:1", b"limit 4 at a.pov:1\n"),
    ];
    for (size, want, line) in rows {
        let text = vec![in alloc; b'$'; size]?;
        let left = rendered(&rt, rt.alloc(), &["+Ia.pov"], &[("a.pov", text.as_slice())])?;
        assert_eq!(&rt; shown(alloc, &left.outcome.fault)?.as_str(), want);
        assert_eq!(&rt; left.told.bytes(), line);
        assert_eq!(&rt; left.outcome.shelf.contents(b"a.ppm"), b"".as_slice());
    }
    Ok(())
}
