// INI files among other words, and their sections.
use crate::shown::{asked, held, told};
use options::{OptionFault, read};
use std::test::Fail;

const TEXTS: [(&str, &[u8]); 5] = [
    ("s.ini", b"Width=2 ; two\nHeight=1\n[big]\nWidth=4\n"),
    (
        "x.ini",
        b"Width=2\n[a]\nWidth=3\n [b] ; second\nWidth=4\nfoo\n[a]\nHeight=5\n[ c ]\nWidth=6\n[]\nWidth=7",
    ),
    ("bad.ini", b"foo\n[a]\n"),
    ("q[1].ini", b"Width=8\n[a]\nWidth=9"),
    ("b.ini", b"Bits_Per_Color=16"),
];

const LISTS: [(&[&str], &str); 25] = [
    (&["s.ini[big]", "+Ia.pov"], "a.pov to a.ppm 4x1 P8"),
    (&["s.ini", "+Ia.pov"], "a.pov to a.ppm 2x1 P8"),
    (&["a.pov", "+W9", "s.ini"], "a.pov to a.ppm 2x1 P8"),
    (&["a.pov", "s.ini", "+W9"], "a.pov to a.ppm 9x1 P8"),
    (&["a.pov", "s.ini", "s.ini[big]"], "a.pov to a.ppm 4x1 P8"),
    (&["a.pov", "s.ini[big]", "s.ini"], "a.pov to a.ppm 2x1 P8"),
    (&["a.pov", "s.ini[b]"], "absent at word 2"),
    (&["a.pov", "s.ini[Big]"], "absent at word 2"),
    (&["a.pov", "s.ini[big ]"], "absent at word 2"),
    (&["a.pov", "s.ini[]"], "absent at word 2"),
    (&["a.pov", "x.ini"], "a.pov to a.ppm 2x240 P8"),
    (&["a.pov", "x.ini[a]"], "a.pov to a.ppm 3x5 P8"),
    (&["a.pov", "x.ini[b]"], "bad line at line 6"),
    (&["a.pov", "x.ini[ c ]"], "a.pov to a.ppm 6x240 P8"),
    (&["a.pov", "x.ini[c]"], "absent at word 2"),
    (&["a.pov", "x.ini[]"], "a.pov to a.ppm 7x240 P8"),
    (&["a.pov", "X.ini"], "absent at word 2"),
    (&["a.pov", "bad.ini"], "bad line at line 1"),
    (&["a.pov", "bad.ini[b]"], "absent at word 2"),
    (&["a.pov", "+W0", "bad.ini"], "range at word 2"),
    (&["a.pov", "q[1].ini"], "a.pov to a.ppm 8x240 P8"),
    (&["a.pov", "q[1].ini[a]"], "a.pov to a.ppm 9x240 P8"),
    (&["s.ini"], "missing at word 0"),
    (&["a.pov", "b.ini", "+FT"], "a.pov to a.tga 320x240 T8"),
    (
        &["a.pov", "+FT", "b.ini", "+FP"],
        "a.pov to a.ppm 320x240 P16",
    ),
];

#[test]
fn sections_count_where_they_are_chosen(rt: HostRuntime) -> Result<(), Fail> {
    for (words, line) in &LISTS {
        let told = told(rt.alloc(), words, &TEXTS)?;
        assert_eq!(&rt; told.as_str(), *line);
    }
    Ok(())
}

#[test]
fn a_text_that_fails_is_told(rt: HostRuntime) -> Result<(), Fail> {
    let words = asked(rt.alloc(), &["s.ini", "x.ini", "a.pov"])?;
    let mut texts = held(rt.alloc(), &TEXTS)?;
    texts.fail_on(2);
    let fault = read(rt.alloc(), &words, &mut texts).err();
    assert_eq!(&rt; fault, Some(OptionFault::TextFault));
    assert!(&rt; read(rt.alloc(), &words, &mut texts).is_ok());
    Ok(())
}
