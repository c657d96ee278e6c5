// Rows by hand.
ghost use Rattle.std.specs.Prelude.{◌≡◌, IsSome, IfOk};
ghost use Rattle.shelf.specs.Disk.{most_at};
ghost use Rattle.shelf.specs.Memory.{slots_of};

use crate::{Failed, FolderShelf, HoldFail, MemShelf, MemSink, NoSink, Shelf, Sink, StdSink};
use std::alloc::Global;
use std::fs;
use std::test::Fail;

#[derive(Clone, Copy, Debug)]
enum Step {
    Write(u64, &'static [u8]),
    Cut(u64),
    Sync,
}

/// What a file of at most 16 bytes reads as after each step.
const ROWS: [(Step, &[u8]); 8] = [
    (Step::Write(0, b"hello"), b"hello"),
    (Step::Write(5, b" world"), b"hello world"),
    (Step::Write(3, b"p!"), b"help! world"),
    (Step::Cut(4), b"help"),
    (Step::Write(4, b""), b"help"),
    (Step::Sync, b"help"),
    (Step::Write(2, b"ap of it all!!"), b"heap of it all!!"),
    (Step::Cut(0), b""),
];

/// Does a step whose conditions hold.
fn apply<S: Shelf>(shelf: &mut S, slot: u32, step: Step) -> Result<(), Failed>
    requires held { IsSome (S.slots shelf.old slot) }
    requires most { most_at (S.slots shelf.old slot) ≡ 16 }
    ensures held { IsSome (S.slots shelf.new slot) }
    ensures most { most_at (S.slots shelf.new slot) ≡ 16 }
{
    let size = shelf.length(slot)?;
    match step {
        Step::Write(at, bytes) => {
            if at > size || bytes.len() > 16 || at > 16 - bytes.len() as u64 {
                return Err(Failed);
            }
            shelf.write_at(slot, at, bytes)
        }
        Step::Cut(to) => {
            if to > size {
                return Err(Failed);
            }
            shelf.cut(slot, to)
        }
        Step::Sync => shelf.sync(slot),
    }
}

/// Reads a part that the file has.
fn read_part<S: Shelf>(shelf: &mut S, slot: u32, at: u64, out: &mut [u8]) -> Result<(), Failed>
    requires held { IsSome (S.slots shelf.old slot) }
    requires most { most_at (S.slots shelf.old slot) ≡ 16 }
    ensures held { IsSome (S.slots shelf.new slot) }
    ensures most { most_at (S.slots shelf.new slot) ≡ 16 }
{
    let size = shelf.length(slot)?;
    if at > size || out.len() as u64 > size - at {
        return Err(Failed);
    }
    shelf.read(slot, at, out)
}

/// The file's length and bytes are these.
fn reads_as<S: Shelf>(shelf: &mut S, slot: u32, want: &[u8]) -> Result<bool, Failed>
    requires held { IsSome (S.slots shelf.old slot) }
    requires most { most_at (S.slots shelf.old slot) ≡ 16 }
    ensures held { IsSome (S.slots shelf.new slot) }
    ensures most { most_at (S.slots shelf.new slot) ≡ 16 }
{
    let size = shelf.length(slot)?;
    if want.len() > 16 || size != want.len() as u64 {
        return Ok(false);
    }
    let mut buffer = [0u8; 16];
    let out = &mut buffer[..want.len()];
    read_part(shelf, slot, 0, out)?;
    Ok(&buffer[..want.len()] == want)
}

/// Each row comes out as it is written down.
fn follows_rows<S: Shelf>(shelf: &mut S, slot: u32) -> Result<bool, Failed>
    requires held { IsSome (S.slots shelf.old slot) }
    requires most { most_at (S.slots shelf.old slot) ≡ 16 }
    ensures held { IsSome (S.slots shelf.new slot) }
    ensures most { most_at (S.slots shelf.new slot) ≡ 16 }
{
    for (step, want) in ROWS {
        apply(shelf, slot, step)?;
        if !reads_as(shelf, slot, want)? {
            return Ok(false);
        }
    }
    apply(shelf, slot, Step::Write(0, b"kept bytes"))?;
    Ok(true)
}

/// A shelf that another thread may own.
fn sendable<S: Shelf + Send>(_shelf: &S) {}

#[test]
fn sinks_in_memory(rt: HostRuntime) -> Result<(), Fail> {
    let mut sink = MemSink::with_room(rt.alloc(), 5)?;
    let rows: [(&[u8], bool, &[u8]); 5] = [
        (b"abc", true, b"abc"),
        (b"", true, b"abc"),
        (b"def", false, b"abc"),
        (b"de", true, b"abcde"),
        (b"f", false, b"abcde"),
    ];
    for (bytes, fits, want) in rows {
        assert_eq!(rt; sink.write(bytes).is_ok(), fits, "{bytes:?}");
        assert_eq!(rt; sink.bytes(), want);
    }
    assert_eq!(rt; NoSink.write(b"abc"), Ok(()));
    Ok(())
}

#[test]
fn sink_over_a_stream(rt: HostRuntime) -> Result<(), Fail> {
    let mut sink = StdSink::new(fs::create(&rt, "said.txt")?);
    assert_eq!(rt; sink.write(b"one line\n"), Ok(()));
    assert_eq!(rt; sink.write(b""), Ok(()));
    assert_eq!(rt; sink.write(b"and another\n"), Ok(()));
    drop(sink);
    assert_eq!(rt;
        fs::read(&rt, "said.txt")?.as_slice(),
        b"one line\nand another\n".as_slice()
    );
    // A stream that takes nothing.
    let mut shut = StdSink::new(fs::open(&rt, "said.txt")?);
    assert_eq!(rt; shut.write(b""), Ok(()));
    assert_eq!(rt; shut.write(b"more"), Err(Failed));
    fs::remove_file(&rt, "said.txt")?;
    Ok(())
}

#[test]
fn folder(rt: HostRuntime) -> Result<(), Fail> {
    fs::write(&rt, "image.bin", b"older")?;
    let mut shelf = FolderShelf::new(rt, rt.alloc());
    sendable(&shelf);
    let slot = shelf.hold(rt.alloc(), b"image.bin", 16)?;
    assert_eq!(rt; shelf.length(slot), Ok(5));
    apply(&mut shelf, slot, Step::Cut(0))?;
    assert!(rt; follows_rows(&mut shelf, slot)?);
    assert_eq!(rt;
        fs::read(&rt, "image.bin")?.as_slice(),
        b"kept bytes".as_slice()
    );
    // A read past the end.
    let mut part = [0u8; 5];
    assert_eq!(rt; shelf.read(slot, 6, &mut part), Err(Failed));
    shelf.let_go();
    assert_eq!(rt; shelf.hold(rt.alloc(), b"\xff", 16), Err(HoldFail::Failed));
    let slot = shelf.hold(rt.alloc(), b"image.bin", 16)?;
    read_part(&mut shelf, slot, 5, &mut part)?;
    assert_eq!(rt; &part, b"bytes");
    fs::remove_file(&rt, "image.bin")?;
    Ok(())
}

/// A shelf that holds one file of at most 16 bytes.
fn shelf_of(alloc: Global, name: &[u8]) -> Result<(MemShelf, u32), HoldFail>
    ensures held { IfOk result (λ both. IsSome (slots_of both.0 both.1)) }
    ensures most { IfOk result (λ both. most_at (slots_of both.0 both.1) ≡ 16) }
{
    let mut shelf = MemShelf::new(alloc);
    let slot = shelf.hold(alloc, name, 16)?;
    Ok((shelf, slot))
}

/// Gives up the file that is held, and holds this one.
fn hold_next<S: Shelf>(shelf: &mut S, alloc: Global, name: &[u8]) -> Result<u32, HoldFail>
    ensures held { IfOk result (λ slot. IsSome (S.slots shelf.new slot)) }
    ensures most { IfOk result (λ slot. most_at (S.slots shelf.new slot) ≡ 16) }
{
    shelf.let_go();
    shelf.hold(alloc, name, 16)
}

/// The call of this number fails.
fn failing(shelf: &mut MemShelf, slot: u32, call: u64)
    requires held { IsSome (slots_of shelf.old slot) }
    requires most { most_at (slots_of shelf.old slot) ≡ 16 }
    ensures held { IsSome (slots_of shelf.new slot) }
    ensures most { most_at (slots_of shelf.new slot) ≡ 16 }
{
    shelf.fail_on(call);
}

/// After so many changes every call fails.
fn stopping(shelf: &mut MemShelf, slot: u32, changes: u64)
    requires held { IsSome (slots_of shelf.old slot) }
    requires most { most_at (slots_of shelf.old slot) ≡ 16 }
    ensures held { IsSome (slots_of shelf.new slot) }
    ensures most { most_at (slots_of shelf.new slot) ≡ 16 }
{
    shelf.stop_after(changes);
}

/// What these picks leave under a name is this.
fn leaves(shelf: MemShelf, picks: &[u8], name: &[u8], want: &[u8]) -> bool {
    shelf.crash(picks).contents(name) == want
}

#[test]
fn memory(rt: HostRuntime) -> Result<(), Fail> {
    let (mut shelf, slot) = shelf_of(rt.alloc(), b"image.bin")?;
    sendable(&shelf);
    assert_eq!(rt; shelf.contents(b"image.bin"), b"".as_slice());
    assert!(rt; follows_rows(&mut shelf, slot)?);
    assert_eq!(rt; shelf.contents(b"image.bin"), b"kept bytes".as_slice());
    let slot = hold_next(&mut shelf, rt.alloc(), b"other")?;
    apply(&mut shelf, slot, Step::Write(0, b"others"))?;
    assert_eq!(rt; shelf.contents(b"image.bin"), b"kept bytes".as_slice());
    assert_eq!(rt; shelf.contents(b"other"), b"others".as_slice());
    // A name that is held again.
    let slot = hold_next(&mut shelf, rt.alloc(), b"image.bin")?;
    let mut part = [0u8; 5];
    read_part(&mut shelf, slot, 5, &mut part)?;
    assert_eq!(rt; &part, b"bytes");
    Ok(())
}

/// The call of the number that was named last fails, and changes nothing that is read.
#[test]
fn failures_on_demand(rt: HostRuntime) -> Result<(), Fail> {
    let (mut shelf, slot) = shelf_of(rt.alloc(), b"a")?;
    apply(&mut shelf, slot, Step::Write(0, b"kept"))?;
    failing(&mut shelf, slot, 1);
    failing(&mut shelf, slot, 4);
    assert_eq!(rt; apply(&mut shelf, slot, Step::Sync), Ok(()));
    assert_eq!(rt; apply(&mut shelf, slot, Step::Cut(1)), Err(Failed));
    assert_eq!(rt; shelf.contents(b"a"), b"kept".as_slice());
    failing(&mut shelf, slot, 2);
    assert_eq!(rt;
        apply(&mut shelf, slot, Step::Write(1, b"new")),
        Err(Failed)
    );
    let mut part = [7u8; 4];
    failing(&mut shelf, slot, 2);
    assert_eq!(rt; read_part(&mut shelf, slot, 0, &mut part), Err(Failed));
    assert_eq!(rt; &part, &[7u8; 4]);
    assert_eq!(rt; shelf.contents(b"a"), b"kept".as_slice());
    // To give up the slots is no counted call.
    failing(&mut shelf, slot, 1);
    assert_eq!(rt;
        hold_next(&mut shelf, rt.alloc(), b"b"),
        Err(HoldFail::Failed)
    );
    Ok(())
}

/// A file whose write of "hello, world" was synced, and then "HE" was written at 0 and "!?" at its
/// end.
fn torn(alloc: Global) -> Result<MemShelf, Fail> {
    let (mut shelf, slot) = shelf_of(alloc, b"a")?;
    apply(&mut shelf, slot, Step::Write(0, b"hello, world"))?;
    apply(&mut shelf, slot, Step::Sync)?;
    apply(&mut shelf, slot, Step::Write(0, b"HE"))?;
    apply(&mut shelf, slot, Step::Write(12, b"!?"))?;
    Ok(shelf)
}

/// What picks leave of it: two for each place, of which there are 14.
const LEFT: [(&[u8], &[u8]); 10] = [
    // Nothing that came after the sync.
    (b"", b"hello, world"),
    (b"\x00\xff\x00\xff", b"hello, world"),
    // The first place as a read gives, the second one any byte.
    (b"\x01\x00\x02z", b"Hzllo, world"),
    (b"\x07y\x01", b"yEllo, world"),
    // A place that wasn't written keeps its byte.
    (b"\x01\x00\x01\x00\x02z\x02z", b"HEllo, world"),
    // The file doesn't end below its least length.
    (b"\x03\x00\x03\x00\x03\x00", b"\x00\x00llo, world"),
    // All that a read gives.
    (
        b"\x01\x00\x01\x00\x01\x00\x01\x00\x01\x00\x01\x00\x01\x00\x01\x00\x01\x00\x01\x00\x01\x00\x01\x00\x01\x00\x01\x00",
        b"HEllo, world!?",
    ),
    // Longer by one byte, and then by two of any kind.
    (
        b"\x00\x00\x00\x00\x00\x00\x00\x00\x00\x00\x00\x00\x00\x00\x00\x00\x00\x00\x00\x00\x00\x00\x00\x00\x01\x00\x00\x00",
        b"hello, world!",
    ),
    (
        b"\x00\x00\x00\x00\x00\x00\x00\x00\x00\x00\x00\x00\x00\x00\x00\x00\x00\x00\x00\x00\x00\x00\x00\x00\x02A\x02B",
        b"hello, worldAB",
    ),
    // It ends at the end that it had.
    (
        b"\x00\x00\x00\x00\x00\x00\x00\x00\x00\x00\x00\x00\x00\x00\x00\x00\x00\x00\x00\x00\x00\x00\x00\x00\x03\x00\x01\x00",
        b"hello, world",
    ),
];

#[test]
fn picks(rt: HostRuntime) -> Result<(), Fail> {
    for (picks, want) in LEFT {
        assert!(rt; leaves(torn(rt.alloc())?, picks, b"a", want), "{picks:?}");
        // It is left for good.
        let shelf = torn(rt.alloc())?.crash(picks);
        assert!(rt;
            leaves(shelf, b"\x03\x01\x02\x03\x03\x03", b"a", want),
            "{picks:?}"
        );
    }
    Ok(())
}

/// "hello, world", synced and then cut to "hell".
fn cut_short(alloc: Global) -> Result<MemShelf, Fail> {
    let (mut shelf, slot) = shelf_of(alloc, b"a")?;
    apply(&mut shelf, slot, Step::Write(0, b"hello, world"))?;
    apply(&mut shelf, slot, Step::Sync)?;
    apply(&mut shelf, slot, Step::Cut(4))?;
    Ok(shelf)
}

/// "kept", synced, over which a write of "LONG" at 2 failed.
fn written_in_part(alloc: Global) -> Result<MemShelf, Fail> {
    let (mut shelf, slot) = shelf_of(alloc, b"a")?;
    apply(&mut shelf, slot, Step::Write(0, b"kept"))?;
    apply(&mut shelf, slot, Step::Sync)?;
    failing(&mut shelf, slot, 2);
    let _ = apply(&mut shelf, slot, Step::Write(2, b"LONG"));
    Ok(shelf)
}

/// A cut that wasn't synced may have come or not, whole or in part.
#[test]
fn picks_after_a_cut(rt: HostRuntime) -> Result<(), Fail> {
    let rows: [(&[u8], &[u8]); 4] = [
        (b"", b"hello, world"),
        (b"\x00\x00\x00\x00\x01\x00\x00\x00", b"hello, world"),
        (b"\x00\x00\x00\x00\x01\x00\x00\x00\x01", b"hell"),
        (b"\x00\x00\x00\x00\x01\x00\x00\x00\x00\x00\x03", b"hello"),
    ];
    for (picks, want) in rows {
        assert!(rt;
            leaves(cut_short(rt.alloc())?, picks, b"a", want),
            "{picks:?}"
        );
    }
    Ok(())
}

/// A write that fails isn't read, and a crash may leave it in part; it never reaches before its
/// start.
#[test]
fn a_failing_write(rt: HostRuntime) -> Result<(), Fail> {
    let rows: [(&[u8], &[u8]); 3] = [
        (b"", b"kept"),
        (b"\x02z\x02z\x02z\x02z\x02z", b"kezzz"),
        (b"\x02z\x02z\x02z\x02z\x02z\x02z", b"kezzzz"),
    ];
    for (picks, want) in rows {
        let shelf = written_in_part(rt.alloc())?;
        assert_eq!(rt; shelf.contents(b"a"), b"kept".as_slice());
        assert!(rt; leaves(shelf, picks, b"a", want), "{picks:?}");
    }
    Ok(())
}

/// Two files: the picks of the second begin behind those of the first, which may have 2 bytes.
#[test]
fn picks_of_two_files(rt: HostRuntime) -> Result<(), Fail> {
    let rows: [(&[u8], &[u8]); 3] = [(b"a", b"A"), (b"b", b"xY"), (b"c", b"")];
    for (name, want) in rows {
        let (mut shelf, slot) = shelf_of(rt.alloc(), b"a")?;
        apply(&mut shelf, slot, Step::Write(0, b"ab"))?;
        let slot = hold_next(&mut shelf, rt.alloc(), b"b")?;
        apply(&mut shelf, slot, Step::Write(0, b"xyz"))?;
        assert!(rt;
            leaves(shelf, b"\x02A\x03\x00\x01\x00\x02Y\x03", name, want),
            "{name:?}"
        );
    }
    Ok(())
}

/// A sync that fails keeps nothing, and one that succeeds keeps all.
#[test]
fn a_failing_sync(rt: HostRuntime) -> Result<(), Fail> {
    let rows: [(u64, &[u8], &[u8]); 2] = [(2, b"", b""), (9, b"\x03\x00\x02z", b"kept")];
    for (call, picks, want) in rows {
        let (mut shelf, slot) = shelf_of(rt.alloc(), b"a")?;
        apply(&mut shelf, slot, Step::Write(0, b"kept"))?;
        failing(&mut shelf, slot, call);
        assert_eq!(rt; apply(&mut shelf, slot, Step::Sync).is_ok(), call == 9);
        assert!(rt; leaves(shelf, picks, b"a", want), "{picks:?}");
    }
    Ok(())
}

/// The picks of a number, so that many lists are tried.
fn some_picks(number: u32) -> [u8; 32] {
    let mut picks = [0u8; 32];
    let mut state = number.wrapping_mul(2654435761).wrapping_add(1);
    for place in 0..32 {
        state = state.wrapping_mul(1664525).wrapping_add(1013904223);
        let byte = state.to_be_bytes()[0];
        picks[place] = if place % 2 == 0 { byte % 4 } else { byte };
    }
    picks
}

/// Writes 8 bytes of a record and then, after a sync, the byte before them that says it is there.
fn record<S: Shelf>(shelf: &mut S, slot: u32) -> Result<(), Failed>
    requires held { IsSome (S.slots shelf.old slot) }
    requires most { most_at (S.slots shelf.old slot) ≡ 16 }
    ensures held { IsSome (S.slots shelf.new slot) }
    ensures most { most_at (S.slots shelf.new slot) ≡ 16 }
{
    apply(shelf, slot, Step::Write(0, b"\x00"))?;
    apply(shelf, slot, Step::Sync)?;
    apply(shelf, slot, Step::Write(1, b"recorded"))?;
    apply(shelf, slot, Step::Sync)?;
    apply(shelf, slot, Step::Write(0, b"\x01"))?;
    apply(shelf, slot, Step::Sync)?;
    Ok(())
}

/// What is left of a record that was stopped after so many changes.
fn left_of_record(alloc: Global, changes: u64, picks: &[u8]) -> Result<(MemShelf, bool), Fail> {
    let (mut shelf, slot) = shelf_of(alloc, b"a")?;
    stopping(&mut shelf, slot, changes);
    let done = record(&mut shelf, slot).is_ok();
    Ok((shelf.crash(picks), done))
}

/// Stopped after each count of changes and crashed by many picks, a record that says that it is
/// there is there whole; and after the last sync it is there.
#[test]
fn crashes_after_each_change(rt: HostRuntime) -> Result<(), Fail> {
    for changes in 0..7u64 {
        for number in 0..100u32 {
            let picks = some_picks(number);
            let (shelf, done) = left_of_record(rt.alloc(), changes, &picks)?;
            assert_eq!(rt; done, changes == 6);
            let left = shelf.contents(b"a");
            assert!(rt; left.len() <= 9);
            if left.len() == 9 && left[0] != 0 {
                assert_eq!(rt; &left[1..], b"recorded".as_slice());
            }
            assert!(rt; !done || left == b"\x01recorded".as_slice());
        }
    }
    Ok(())
}

/// After a stop every call fails, and what a crash leaves has no calls that fail.
#[test]
fn stops(rt: HostRuntime) -> Result<(), Fail> {
    let (mut shelf, slot) = shelf_of(rt.alloc(), b"a")?;
    stopping(&mut shelf, slot, 1);
    assert_eq!(rt; apply(&mut shelf, slot, Step::Write(0, b"one")), Ok(()));
    assert_eq!(rt; apply(&mut shelf, slot, Step::Sync), Err(Failed));
    let mut part = [0u8; 1];
    assert_eq!(rt; read_part(&mut shelf, slot, 0, &mut part), Err(Failed));
    assert_eq!(rt;
        hold_next(&mut shelf, rt.alloc(), b"b"),
        Err(HoldFail::Failed)
    );
    let mut shelf = shelf.crash(b"");
    assert!(rt; !shelf.lost());
    let slot = hold_next(&mut shelf, rt.alloc(), b"a")?;
    assert_eq!(rt; apply(&mut shelf, slot, Step::Write(0, b"two")), Ok(()));
    assert_eq!(rt; shelf.contents(b"a"), b"two".as_slice());
    Ok(())
}
