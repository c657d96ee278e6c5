// The switches and INI names, each with what it reads. The definitions read these very tables. Both are found by
// their first letter, and then in the table of that letter. (Reference manual, command-line options and INI files)
ghost use Rattle.std.specs.Prelude.{◌≡◌};
ghost use Rattle.options.specs.Table.{switch_in, switch_at, switch_of, name_in, name_at, name_of};

use crate::values::{begins, is_spelled, lower};
use image_out::Sort;

/// An option whose value is a name.
#[derive(Clone, Copy)]
pub enum Name {
    Input,
    Output,
    Library,
}

/// An option whose value is a whole number from 1 on.
#[derive(Clone, Copy)]
pub enum Count {
    Width,
    Height,
    Workers,
    First,
    Last,
    From,
    To,
    Objects,
    Depth,
}

/// An option whose value is a signed number.
#[derive(Clone, Copy)]
pub enum Clock {
    Single,
    Initial,
    Final,
}

/// An option that is on or off.
#[derive(Clone, Copy)]
pub enum Flag {
    Continue,
    Cyclic,
    Antialias,
}

/// Bits of a sample.
#[derive(Clone, Copy)]
pub enum Bits {
    Eight,
    Sixteen,
}

/// What a switch without a value says.
#[derive(Clone, Copy)]
pub enum Fact {
    Flag(Flag, bool),
    /// The sort of file; the bits stay.
    Sort(Sort),
    /// A PPM file with these bits.
    Ppm(Bits),
    /// No effect.
    Nothing,
}

/// How the value of an option is read.
#[derive(Clone, Copy)]
pub enum Reading {
    /// A name that isn't empty.
    Name(Name),
    /// A whole number in its range.
    Count(Count),
    /// A signed number.
    Clock(Clock),
    /// A number from 0 to 3: the threshold of supersampling.
    Threshold,
    /// Supersampling on, perhaps with its threshold.
    Smooth,
    /// A truth value.
    Truth(Flag),
    /// Nothing may stand there.
    Alone(Fact),
    /// This digit alone, which says what holds anyway.
    Only(u8),
    /// A letter for the sort of file.
    Letter,
    /// 8 or 16.
    Depth,
    /// A true truth value, which says what holds anyway.
    On,
    /// Any value, and no effect.
    Ignored,
    /// Not part of this program, whatever the value.
    Foreign,
}

/// What a word begins with: how the rest of it is read, and how many letters the switch has.
#[derive(Clone, Copy)]
pub struct Switch {
    pub reading: Reading,
    pub length: usize,
}

const INPUT: Reading = Reading::Name(Name::Input);

const OUTPUT: Reading = Reading::Name(Name::Output);

const LIBRARY: Reading = Reading::Name(Name::Library);

const WIDTH: Reading = Reading::Count(Count::Width);

const HEIGHT: Reading = Reading::Count(Count::Height);

const WORKERS: Reading = Reading::Count(Count::Workers);

const FIRST: Reading = Reading::Count(Count::First);

const LAST: Reading = Reading::Count(Count::Last);

const FROM: Reading = Reading::Count(Count::From);

const TO: Reading = Reading::Count(Count::To);

const OBJECTS: Reading = Reading::Count(Count::Objects);

const SUBPIXELS: Reading = Reading::Count(Count::Depth);

const CLOCK: Reading = Reading::Clock(Clock::Single);

const INITIAL: Reading = Reading::Clock(Clock::Initial);

const FINAL: Reading = Reading::Clock(Clock::Final);

const NOTHING: Reading = Reading::Alone(Fact::Nothing);

// The switches of a letter, with what follows a `+` and what follows a `-`. Longer ones stand before those that they
// begin with.
static A_SWITCHES: [(&[u8], Reading, Reading); 2] = [
    (b"am", Reading::Only(b'1'), Reading::Only(b'1')),
    (
        b"a",
        Reading::Smooth,
        Reading::Alone(Fact::Flag(Flag::Antialias, false)),
    ),
];

static C_SWITCHES: [(&[u8], Reading, Reading); 1] = [(
    b"c",
    Reading::Alone(Fact::Flag(Flag::Continue, true)),
    Reading::Alone(Fact::Flag(Flag::Continue, false)),
)];

static D_SWITCHES: [(&[u8], Reading, Reading); 1] = [(b"d", Reading::Ignored, Reading::Ignored)];

static E_SWITCHES: [(&[u8], Reading, Reading); 3] = [
    (b"ef", TO, TO),
    (b"ec", Reading::Foreign, Reading::Foreign),
    (b"er", Reading::Foreign, Reading::Foreign),
];

static F_SWITCHES: [(&[u8], Reading, Reading); 9] = [
    (
        b"fp16",
        Reading::Alone(Fact::Ppm(Bits::Sixteen)),
        Reading::Alone(Fact::Ppm(Bits::Sixteen)),
    ),
    (
        b"fp8",
        Reading::Alone(Fact::Ppm(Bits::Eight)),
        Reading::Alone(Fact::Ppm(Bits::Eight)),
    ),
    (
        b"fp",
        Reading::Alone(Fact::Sort(Sort::Ppm)),
        Reading::Alone(Fact::Sort(Sort::Ppm)),
    ),
    (
        b"ft",
        Reading::Alone(Fact::Sort(Sort::Targa)),
        Reading::Alone(Fact::Sort(Sort::Targa)),
    ),
    (
        b"fc",
        Reading::Alone(Fact::Sort(Sort::TargaRle)),
        Reading::Alone(Fact::Sort(Sort::TargaRle)),
    ),
    (b"fn", Reading::Foreign, Reading::Foreign),
    (b"fb", Reading::Foreign, Reading::Foreign),
    (b"fj", Reading::Foreign, Reading::Foreign),
    (b"fe", Reading::Foreign, Reading::Foreign),
];

static G_SWITCHES: [(&[u8], Reading, Reading); 1] = [(b"gen", OBJECTS, OBJECTS)];

static H_SWITCHES: [(&[u8], Reading, Reading); 1] = [(b"h", HEIGHT, HEIGHT)];

static I_SWITCHES: [(&[u8], Reading, Reading); 1] = [(b"i", INPUT, INPUT)];

static J_SWITCHES: [(&[u8], Reading, Reading); 1] = [(b"j", Reading::Foreign, NOTHING)];

static K_SWITCHES: [(&[u8], Reading, Reading); 6] = [
    (b"kfi", FIRST, FIRST),
    (b"kff", LAST, LAST),
    (b"kf", FINAL, FINAL),
    (b"ki", INITIAL, INITIAL),
    (
        b"kc",
        Reading::Alone(Fact::Flag(Flag::Cyclic, true)),
        Reading::Alone(Fact::Flag(Flag::Cyclic, false)),
    ),
    (b"k", CLOCK, CLOCK),
];

static L_SWITCHES: [(&[u8], Reading, Reading); 1] = [(b"l", LIBRARY, LIBRARY)];

static O_SWITCHES: [(&[u8], Reading, Reading); 1] = [(b"o", OUTPUT, OUTPUT)];

static P_SWITCHES: [(&[u8], Reading, Reading); 1] = [(b"p", Reading::Ignored, Reading::Ignored)];

static Q_SWITCHES: [(&[u8], Reading, Reading); 1] = [(
    b"q",
    Reading::Only(b'9'),
    Reading::Only(b'9'),
)];

static R_SWITCHES: [(&[u8], Reading, Reading); 1] = [(b"r", SUBPIXELS, SUBPIXELS)];

static S_SWITCHES: [(&[u8], Reading, Reading); 3] = [
    (b"sf", FROM, FROM),
    (b"sc", Reading::Foreign, Reading::Foreign),
    (b"sr", Reading::Foreign, Reading::Foreign),
];

static U_SWITCHES: [(&[u8], Reading, Reading); 1] = [(b"ua", Reading::Foreign, NOTHING)];

static V_SWITCHES: [(&[u8], Reading, Reading); 1] = [(b"v", Reading::Ignored, Reading::Ignored)];

static W_SWITCHES: [(&[u8], Reading, Reading); 2] = [
    (b"wt", WORKERS, WORKERS),
    (b"w", WIDTH, WIDTH),
];

/// The first switch of a table that begins the letters.
fn switch_in(
    switches: &[(&[u8], Reading, Reading)],
    is_minus: bool,
    letters: &[u8],
) -> Option<Switch>
    ensures { result ≡ switch_in (λ entry. entry.0.now) (λ entry. entry.1) (λ entry. entry.2) is_minus letters.now switches.now }
{
    for (switch, plus, minus) in switches {
        if begins(switch, letters) {
            return Some(Switch {
                reading: if is_minus { *minus } else { *plus },
                length: switch.len(),
            });
        }
    }
    None
}

/// The longest switch that begins the letters, whose first one is this letter.
fn switch_at(letter: u8, is_minus: bool, letters: &[u8]) -> Option<Switch>
    ensures { result ≡ switch_at letter is_minus letters.now }
{
    if letter == b'a' {
        return switch_in(&A_SWITCHES, is_minus, letters);
    }
    if letter == b'c' {
        return switch_in(&C_SWITCHES, is_minus, letters);
    }
    if letter == b'd' {
        return switch_in(&D_SWITCHES, is_minus, letters);
    }
    if letter == b'e' {
        return switch_in(&E_SWITCHES, is_minus, letters);
    }
    if letter == b'f' {
        return switch_in(&F_SWITCHES, is_minus, letters);
    }
    if letter == b'g' {
        return switch_in(&G_SWITCHES, is_minus, letters);
    }
    if letter == b'h' {
        return switch_in(&H_SWITCHES, is_minus, letters);
    }
    if letter == b'i' {
        return switch_in(&I_SWITCHES, is_minus, letters);
    }
    if letter == b'j' {
        return switch_in(&J_SWITCHES, is_minus, letters);
    }
    if letter == b'k' {
        return switch_in(&K_SWITCHES, is_minus, letters);
    }
    if letter == b'l' {
        return switch_in(&L_SWITCHES, is_minus, letters);
    }
    if letter == b'o' {
        return switch_in(&O_SWITCHES, is_minus, letters);
    }
    if letter == b'p' {
        return switch_in(&P_SWITCHES, is_minus, letters);
    }
    if letter == b'q' {
        return switch_in(&Q_SWITCHES, is_minus, letters);
    }
    if letter == b'r' {
        return switch_in(&R_SWITCHES, is_minus, letters);
    }
    if letter == b's' {
        return switch_in(&S_SWITCHES, is_minus, letters);
    }
    if letter == b'u' {
        return switch_in(&U_SWITCHES, is_minus, letters);
    }
    if letter == b'v' {
        return switch_in(&V_SWITCHES, is_minus, letters);
    }
    if letter == b'w' {
        return switch_in(&W_SWITCHES, is_minus, letters);
    }
    None
}

/// The longest switch that begins the letters behind a sign.
pub fn switch_of(is_minus: bool, letters: &[u8]) -> Option<Switch>
    ensures { result ≡ switch_of is_minus letters.now }
{
    match letters {
        [] => None,
        [first, ..] => switch_at(lower(*first), is_minus, letters),
    }
}

// The INI names of a letter.
static A_NAMES: [(&[u8], Reading); 3] = [
    (b"antialias", Reading::Truth(Flag::Antialias)),
    (b"antialias_threshold", Reading::Threshold),
    (b"antialias_depth", SUBPIXELS),
];

static B_NAMES: [(&[u8], Reading); 1] = [(b"bits_per_color", Reading::Depth)];

static C_NAMES: [(&[u8], Reading); 3] = [
    (b"continue_trace", Reading::Truth(Flag::Continue)),
    (b"clock", CLOCK),
    (b"cyclic_animation", Reading::Truth(Flag::Cyclic)),
];

static D_NAMES: [(&[u8], Reading); 1] = [(b"display", Reading::Ignored)];

static F_NAMES: [(&[u8], Reading); 2] = [(b"final_frame", LAST), (b"final_clock", FINAL)];

static H_NAMES: [(&[u8], Reading); 1] = [(b"height", HEIGHT)];

static I_NAMES: [(&[u8], Reading); 3] = [
    (b"input_file_name", INPUT),
    (b"initial_frame", FIRST),
    (b"initial_clock", INITIAL),
];

static L_NAMES: [(&[u8], Reading); 1] = [(b"library_path", LIBRARY)];

static O_NAMES: [(&[u8], Reading); 3] = [
    (b"output_file_name", OUTPUT),
    (b"output_file_type", Reading::Letter),
    (b"output_to_file", Reading::On),
];

static P_NAMES: [(&[u8], Reading); 1] = [(b"pause_when_done", Reading::Ignored)];

static Q_NAMES: [(&[u8], Reading); 1] = [(b"quality", Reading::Only(b'9'))];

static S_NAMES: [(&[u8], Reading); 3] = [
    (b"subset_start_frame", FROM),
    (b"subset_end_frame", TO),
    (b"sampling_method", Reading::Only(b'1')),
];

static T_NAMES: [(&[u8], Reading); 1] = [(b"test_abort", Reading::Ignored)];

static V_NAMES: [(&[u8], Reading); 1] = [(b"verbose", Reading::Ignored)];

static W_NAMES: [(&[u8], Reading); 2] = [(b"width", WIDTH), (b"work_threads", WORKERS)];

/// How the value of the first name of a table is read that is spelled like the text.
fn name_in(names: &[(&[u8], Reading)], text: &[u8]) -> Option<Reading>
    ensures { result ≡ name_in (λ entry. entry.0.now) (λ entry. entry.1) text.now names.now }
{
    for (name, reading) in names {
        if is_spelled(name, text) {
            return Some(*reading);
        }
    }
    None
}

/// How the value of an INI name is read whose first letter is this one.
fn name_at(letter: u8, text: &[u8]) -> Option<Reading>
    ensures { result ≡ name_at letter text.now }
{
    if letter == b'a' {
        return name_in(&A_NAMES, text);
    }
    if letter == b'b' {
        return name_in(&B_NAMES, text);
    }
    if letter == b'c' {
        return name_in(&C_NAMES, text);
    }
    if letter == b'd' {
        return name_in(&D_NAMES, text);
    }
    if letter == b'f' {
        return name_in(&F_NAMES, text);
    }
    if letter == b'h' {
        return name_in(&H_NAMES, text);
    }
    if letter == b'i' {
        return name_in(&I_NAMES, text);
    }
    if letter == b'l' {
        return name_in(&L_NAMES, text);
    }
    if letter == b'o' {
        return name_in(&O_NAMES, text);
    }
    if letter == b'p' {
        return name_in(&P_NAMES, text);
    }
    if letter == b'q' {
        return name_in(&Q_NAMES, text);
    }
    if letter == b's' {
        return name_in(&S_NAMES, text);
    }
    if letter == b't' {
        return name_in(&T_NAMES, text);
    }
    if letter == b'v' {
        return name_in(&V_NAMES, text);
    }
    if letter == b'w' {
        return name_in(&W_NAMES, text);
    }
    None
}

/// How the value of an INI name is read.
pub fn name_of(text: &[u8]) -> Option<Reading>
    ensures { result ≡ name_of text.now }
{
    match text {
        [] => None,
        [first, ..] => name_at(lower(*first), text),
    }
}
