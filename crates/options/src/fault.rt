// Why the options of a run are refused.

/// Where a word or a line of the options is at fault.
#[derive(Clone, Copy, Debug, PartialEq, Eq)]
pub enum Where {
    /// The number of the word, from 1; 0 where no single word is at fault.
    Word(u32),
    /// The number of the line of an INI file, from 1.
    Line(u32),
}

/// Why the options are refused.
#[derive(Clone, Copy, Debug, PartialEq, Eq)]
pub enum OptionFault {
    /// There is no such switch or name, or something stands behind a switch that takes nothing.
    UnknownWord(Where),
    /// The value isn't a number, or no truth value.
    BadNumber(Where),
    /// A name is empty, or there is no input.
    Missing(Where),
    /// The number isn't in its range, or there are too many library paths.
    Range(Where),
    /// The INI file isn't there, or has no such section.
    AbsentIni(Where),
    /// The line has none of the forms of an INI line.
    BadLine(Where),
    /// The option exists, and isn't part of this program.
    OutOfProfile(Where),
    /// An INI file couldn't be read; the texts' count of faults rose.
    TextFault,
    /// There is no memory for the options.
    NoMemory,
}
