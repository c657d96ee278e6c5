// Texts over the files of a real folder.
use povfix::{FolderTexts, ReadFail, Texts};
use std::alloc::Global;
use std::fs;
use std::process::Abort;
use std::test::Fail;

/// How long a file is, and how many bytes of it a reading hands out: at most 16 MiB and one.
const LENGTHS: [(usize, usize); 4] = [
    (0, 0),
    (1 << 16, 1 << 16),
    ((1 << 24) + 1, (1 << 24) + 1),
    ((1 << 24) + 2, (1 << 24) + 1),
];

#[test]
fn a_file_is_read_up_to_its_most(rt: HostRuntime) -> Result<(), Fail> {
    let alloc = rt.alloc();
    let mut texts = FolderTexts::new(rt);
    for (length, count) in LENGTHS {
        let bytes = vec![in alloc; b' '; length]?;
        fs::write(&rt, "front.pov", &bytes)?;
        let read = match texts.read(alloc, b"front.pov") {
            Ok(Some(bytes)) => bytes.len(),
            _ => usize::MAX,
        };
        fs::remove_file(&rt, "front.pov")?;
        assert_eq!(&rt; read, count);
    }
    Ok(())
}

/// A file that is longer than what is read at once: each byte is that of its place.
#[test]
fn a_long_file_is_read_in_its_order(rt: HostRuntime) -> Result<(), Fail> {
    let alloc = rt.alloc();
    let mut written = Vec::new(alloc);
    for number in 0..30_000u32 {
        written.extend_from_slice(&number.to_be_bytes())?;
    }
    fs::write(&rt, "order.pov", &written)?;
    let read = FolderTexts::new(rt).read(alloc, b"order.pov");
    fs::remove_file(&rt, "order.pov")?;
    let same = match read {
        Ok(Some(bytes)) => bytes.as_slice() == written.as_slice(),
        _ => false,
    };
    assert!(&rt; same);
    Ok(())
}

/// How a reading ends.
fn ending(alloc: Global, texts: &mut impl Texts, name: &[u8]) -> &'static str {
    match texts.read(alloc, name) {
        Ok(Some(_)) => "some",
        Ok(None) => "none",
        Err(ReadFail::Failed) => "failed",
        Err(ReadFail::NoMemory) => "no memory",
    }
}

#[test]
fn what_is_no_text(rt: HostRuntime) -> Result<(), Fail> {
    let alloc = rt.alloc();
    let mut texts = FolderTexts::new(rt);
    fs::create_dir(&rt, "folder.pov")?;
    let folder = ending(alloc, &mut texts, b"folder.pov");
    fs::remove_dir(&rt, "folder.pov")?;
    assert_eq!(&rt; folder, "failed");
    assert_eq!(&rt; ending(alloc, &mut texts, b"folder.pov"), "none");
    assert_eq!(&rt; ending(alloc, &mut texts, b"\xff.pov"), "none");
    assert_eq!(&rt; ending(alloc, &mut texts, b"a\0.pov"), "failed");
    Ok(())
}
