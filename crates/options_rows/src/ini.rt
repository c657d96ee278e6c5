// Lines of INI files.
use crate::shown::told;
use std::alloc::{AllocError, Global};
use std::process::Abort;
use std::test::Fail;

/// A text that is read behind `a.pov`, and what both come to: how lines are laid out.
const FORMS: [(&[u8], &str); 30] = [
    (b"", "a.pov to a.ppm 320x240 P8"),
    (b"\n\r\n \t\n ; Width=9\n", "a.pov to a.ppm 320x240 P8"),
    (b"Width=2", "a.pov to a.ppm 2x240 P8"),
    (
        b" wIdTh = 2\r\nHEIGHT\t=\t3 ; rows\r\n",
        "a.pov to a.ppm 2x3 P8",
    ),
    (b"Width=2\r", "no number at line 1"),
    (b"Width=\"2\"", "a.pov to a.ppm 2x240 P8"),
    (b"Width= \"2\" ;", "a.pov to a.ppm 2x240 P8"),
    (b"Width=\" 2\"", "no number at line 1"),
    (b"Output_File_Name=\"b c\"", "a.pov to b c.ppm 320x240 P8"),
    (b"Output_File_Name=\"\"", "missing at line 1"),
    (b"Output_File_Name=\"", "a.pov to \".ppm 320x240 P8"),
    (b"Output_File_Name=\"b;c\"", "a.pov to \"b.ppm 320x240 P8"),
    (b"Output_File_Name=b=c", "a.pov to b=c.ppm 320x240 P8"),
    (b"Output_File_Name = b c ", "a.pov to b c.ppm 320x240 P8"),
    (b"Library_Path=", "missing at line 1"),
    (b"+W2 -H3", "a.pov to a.ppm 2x3 P8"),
    (b"\t+W2\t \t-H3 ; c", "a.pov to a.ppm 2x3 P8"),
    (b"+W2 x", "bad line at line 1"),
    (b"+W0 x", "bad line at line 1"),
    (b"+W0 +Zq", "range at line 1"),
    (b"+W2\n\n+Zq", "unknown at line 3"),
    (b"=5", "bad line at line 1"),
    (b"; c\n = 5", "bad line at line 2"),
    (b"foo", "bad line at line 1"),
    (b"Width", "bad line at line 1"),
    (b"y.ini", "bad line at line 1"),
    (b"foo=1", "unknown at line 1"),
    (b"[a", "bad line at line 1"),
    (b"[a]b", "bad line at line 1"),
    (b"[a=1", "unknown at line 1"),
];

/// Names of an INI file with their values.
const NAMES: [(&[u8], &str); 30] = [
    (b"Input_File_Name=b.pov", "b.pov to b.ppm 320x240 P8"),
    (
        b"Library_Path=l1\nLibrary_Path=l2",
        "a.pov to a.ppm 320x240 P8 in l1 in l2",
    ),
    (
        b"+GEN2",
        "generated.pov to generated.ppm 320x240 P8 balls 2",
    ),
    (b"GEN=2", "unknown at line 1"),
    (b"Work_Threads=7", "a.pov to a.ppm 320x240 P8 workers 7"),
    (b"Work_Threads=0", "range at line 1"),
    (b"Clock=-1.5", "a.pov to a.ppm 320x240 P8 clock -98304"),
    (b"Clock=x", "no number at line 1"),
    (
        b"Initial_Frame=2\nFinal_Frame=12",
        "a.pov to a.ppm 320x240 P8 film 2..12",
    ),
    (
        b"Initial_Clock=1\nFinal_Clock=2",
        "a.pov to a.ppm 320x240 P8 clocks 65536..131072",
    ),
    (
        b"Final_Frame=9\nSubset_Start_Frame=2\nSubset_End_Frame=3",
        "a.pov to a.ppm 320x240 P8 film 1..9 part 2..3",
    ),
    (b"Width=2\n\nWidth=x", "no number at line 3"),
    (b"Height=8193", "range at line 1"),
    (b"Output_File_Type=T", "a.pov to a.tga 320x240 T8"),
    (b"Output_File_Type=C", "a.pov to a.tga 320x240 C8"),
    (b"+FT\nOutput_File_Type=P", "a.pov to a.ppm 320x240 P8"),
    (b"Output_File_Type=p", "out of profile at line 1"),
    (b"Output_File_Type=N", "out of profile at line 1"),
    (b"Output_File_Type=", "out of profile at line 1"),
    (b"Output_File_Type=PP", "out of profile at line 1"),
    (b"Bits_Per_Color=16", "a.pov to a.ppm 320x240 P16"),
    (b"Bits_Per_Color=16\n+FT", "a.pov to a.tga 320x240 T8"),
    (b"+FP16\nBits_Per_Color=8", "a.pov to a.ppm 320x240 P8"),
    (b"Bits_Per_Color=08", "out of profile at line 1"),
    (b"Bits_Per_Color=12", "out of profile at line 1"),
    (b"Quality=9", "a.pov to a.ppm 320x240 P8"),
    (b"Quality=09", "out of profile at line 1"),
    (
        b"Display=x\nPause_When_Done=\nVerbose=9\nTest_Abort=no",
        "a.pov to a.ppm 320x240 P8",
    ),
    (b"Sampling_Method=1", "a.pov to a.ppm 320x240 P8"),
    (b"Sampling_Method=2", "out of profile at line 1"),
];

/// Truth values.
const TRUTHS: [(&[u8], &str); 25] = [
    (b"Continue_Trace=on", "a.pov to a.ppm 320x240 P8 continued"),
    (b"Continue_Trace=YES", "a.pov to a.ppm 320x240 P8 continued"),
    (
        b"Continue_Trace=True",
        "a.pov to a.ppm 320x240 P8 continued",
    ),
    (b"Continue_Trace=1", "a.pov to a.ppm 320x240 P8 continued"),
    (b"+C\nContinue_Trace=off", "a.pov to a.ppm 320x240 P8"),
    (b"+C\nContinue_Trace=No", "a.pov to a.ppm 320x240 P8"),
    (b"+C\nContinue_Trace=FALSE", "a.pov to a.ppm 320x240 P8"),
    (b"+C\nContinue_Trace=0", "a.pov to a.ppm 320x240 P8"),
    (b"Continue_Trace=maybe", "no number at line 1"),
    (b"Continue_Trace=", "no number at line 1"),
    (b"Continue_Trace=01", "no number at line 1"),
    (b"Cyclic_Animation=tRuE", "a.pov to a.ppm 320x240 P8 anew"),
    (b"Cyclic_Animation=2", "no number at line 1"),
    (b"Output_to_File=yes", "a.pov to a.ppm 320x240 P8"),
    (b"Output_to_File=off", "out of profile at line 1"),
    (b"Output_to_File=x", "out of profile at line 1"),
    (
        b"Antialias=on",
        "a.pov to a.ppm 320x240 P8 smooth 19661 by 3",
    ),
    (b"+A\nAntialias=no", "a.pov to a.ppm 320x240 P8"),
    (b"Antialias=x", "no number at line 1"),
    (b"Antialias_Threshold=0.5", "a.pov to a.ppm 320x240 P8"),
    (
        b"Antialias=1\nAntialias_Threshold=0.5\nAntialias_Depth=4",
        "a.pov to a.ppm 320x240 P8 smooth 32768 by 4",
    ),
    (b"Antialias_Threshold=-1", "no number at line 1"),
    (b"Antialias_Threshold=4", "range at line 1"),
    (b"Antialias_Depth=0", "range at line 1"),
    (b"Antialias_Depth=x", "no number at line 1"),
];

fn are_read(rt: &impl Abort, alloc: Global, rows: &[(&[u8], &str)]) -> Result<(), AllocError> {
    for (text, line) in rows {
        let told = told(alloc, &["a.pov", "x.ini"], &[("x.ini", *text)])?;
        assert_eq!(rt; told.as_str(), *line);
    }
    Ok(())
}

#[test]
fn lines_have_their_forms(rt: HostRuntime) -> Result<(), Fail> {
    are_read(&rt, rt.alloc(), &FORMS)?;
    Ok(())
}

#[test]
fn names_have_their_values(rt: HostRuntime) -> Result<(), Fail> {
    are_read(&rt, rt.alloc(), &NAMES)?;
    are_read(&rt, rt.alloc(), &TRUTHS)?;
    Ok(())
}
