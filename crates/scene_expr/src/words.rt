// The words that an expression may begin with. (Reference manual, float and vector expressions and functions, and colours)
ghost use Rattle.std.specs.Prelude.{◌≡◌};
ghost use Rattle.scene_expr.specs.Words.{exactly, at_least, arity_of, meaning_in, word_of, channel_in, component_in, channel_of, component_of, class_in, class_of};

/// A word that stands for a value.
#[derive(Clone, Copy)]
pub enum Constant {
    X,
    Y,
    Z,
    Pi,
    True,
    False,
    Clock,
    InitialClock,
    FinalClock,
    FrameNumber,
    InitialFrame,
    FinalFrame,
    ImageWidth,
    ImageHeight,
    Version,
}

/// A call, by its word.
#[derive(Clone, Copy)]
pub enum Call {
    Abs,
    Ceil,
    Floor,
    Int,
    Sqrt,
    Sin,
    Cos,
    Tan,
    Radians,
    Degrees,
    Mod,
    Div,
    Pow,
    Min,
    Max,
    Vdot,
    Vcross,
    Vrotate,
    Vlength,
    Vnormalize,
    Strlen,
    Concat,
    Chr,
    Str,
}

/// How many parts stand between brackets: so many at least, and at most so many, if there is a limit.
#[derive(Clone, Copy)]
pub struct Arity {
    pub least: usize,
    pub most: Option<usize>,
}

fn exactly(count: usize) -> Arity
    ensures { result ≡ exactly count }
{
    Arity {
        least: count,
        most: Some(count),
    }
}

fn at_least(count: usize) -> Arity
    ensures { result ≡ at_least count }
{
    Arity {
        least: count,
        most: None,
    }
}

impl Call {
    /// How many arguments the call takes.
    pub fn arity(self) -> Arity
        ensures { result ≡ arity_of self }
    {
        match self {
            Call::Abs | Call::Ceil | Call::Floor | Call::Int | Call::Sqrt => exactly(1),
            Call::Sin | Call::Cos | Call::Tan | Call::Radians | Call::Degrees => exactly(1),
            Call::Vlength | Call::Vnormalize | Call::Strlen | Call::Chr => exactly(1),
            Call::Mod | Call::Div | Call::Pow => exactly(2),
            Call::Vdot | Call::Vcross | Call::Vrotate => exactly(2),
            Call::Str => exactly(3),
            Call::Min | Call::Max => at_least(2),
            Call::Concat => at_least(1),
        }
    }
}

/// A word before a colour that says which of its five numbers count.
#[derive(Clone, Copy)]
pub enum ColourForm {
    Rgb,
    Rgbf,
    Rgbt,
    Rgbft,
}

/// One of the five numbers of a colour.
#[derive(Clone, Copy)]
pub enum Channel {
    Red,
    Green,
    Blue,
    Filter,
    Transmit,
}

/// One of the three numbers of a vector.
#[derive(Clone, Copy)]
pub enum Axis {
    X,
    Y,
    Z,
}

/// What may stand behind a dot.
#[derive(Clone, Copy)]
pub enum Component {
    Axis(Axis),
    Channel(Channel),
}

/// A word that an expression may begin with.
#[derive(Clone, Copy)]
pub enum Word {
    Constant(Constant),
    Call(Call),
    /// `color` or `colour`.
    Colour,
    Form(ColourForm),
    Channel(Channel),
}

/// The words of expressions, each with what it begins. The definitions read this very table.
static WORDS: [(&[u8], Word); 54] = [
    (b"color", Word::Colour),
    (b"colour", Word::Colour),
    (b"x", Word::Constant(Constant::X)),
    (b"y", Word::Constant(Constant::Y)),
    (b"z", Word::Constant(Constant::Z)),
    (b"pi", Word::Constant(Constant::Pi)),
    (b"true", Word::Constant(Constant::True)),
    (b"on", Word::Constant(Constant::True)),
    (b"yes", Word::Constant(Constant::True)),
    (b"false", Word::Constant(Constant::False)),
    (b"off", Word::Constant(Constant::False)),
    (b"no", Word::Constant(Constant::False)),
    (b"clock", Word::Constant(Constant::Clock)),
    (b"initial_clock", Word::Constant(Constant::InitialClock)),
    (b"final_clock", Word::Constant(Constant::FinalClock)),
    (b"frame_number", Word::Constant(Constant::FrameNumber)),
    (b"initial_frame", Word::Constant(Constant::InitialFrame)),
    (b"final_frame", Word::Constant(Constant::FinalFrame)),
    (b"image_width", Word::Constant(Constant::ImageWidth)),
    (b"image_height", Word::Constant(Constant::ImageHeight)),
    (b"version", Word::Constant(Constant::Version)),
    (b"rgb", Word::Form(ColourForm::Rgb)),
    (b"rgbf", Word::Form(ColourForm::Rgbf)),
    (b"rgbt", Word::Form(ColourForm::Rgbt)),
    (b"rgbft", Word::Form(ColourForm::Rgbft)),
    (b"red", Word::Channel(Channel::Red)),
    (b"green", Word::Channel(Channel::Green)),
    (b"blue", Word::Channel(Channel::Blue)),
    (b"filter", Word::Channel(Channel::Filter)),
    (b"transmit", Word::Channel(Channel::Transmit)),
    (b"abs", Word::Call(Call::Abs)),
    (b"ceil", Word::Call(Call::Ceil)),
    (b"floor", Word::Call(Call::Floor)),
    (b"int", Word::Call(Call::Int)),
    (b"sqrt", Word::Call(Call::Sqrt)),
    (b"sin", Word::Call(Call::Sin)),
    (b"cos", Word::Call(Call::Cos)),
    (b"tan", Word::Call(Call::Tan)),
    (b"radians", Word::Call(Call::Radians)),
    (b"degrees", Word::Call(Call::Degrees)),
    (b"mod", Word::Call(Call::Mod)),
    (b"div", Word::Call(Call::Div)),
    (b"pow", Word::Call(Call::Pow)),
    (b"min", Word::Call(Call::Min)),
    (b"max", Word::Call(Call::Max)),
    (b"vdot", Word::Call(Call::Vdot)),
    (b"vcross", Word::Call(Call::Vcross)),
    (b"vrotate", Word::Call(Call::Vrotate)),
    (b"vlength", Word::Call(Call::Vlength)),
    (b"vnormalize", Word::Call(Call::Vnormalize)),
    (b"strlen", Word::Call(Call::Strlen)),
    (b"concat", Word::Call(Call::Concat)),
    (b"chr", Word::Call(Call::Chr)),
    (b"str", Word::Call(Call::Str)),
];

/// What the first entry means that is spelled like the word.
fn meaning_in(table: &[(&[u8], Word)], word: &[u8]) -> Option<Word>
    ensures { result ≡ meaning_in (λ entry. entry.0.now) (λ entry. entry.1) word.now table.now }
{
    for (spelling, meaning) in table {
        if word == *spelling {
            return Some(*meaning);
        }
    }
    None
}

/// What this word begins.
#[tactic(auto, unfolding(crate::specs::Words::word_of))]
pub fn word_of(word: &[u8]) -> Option<Word>
    ensures { result ≡ word_of word.now }
{
    meaning_in(&WORDS, word)
}

fn channel_in(word: Option<Word>) -> Option<Channel>
    ensures { result ≡ channel_in word }
{
    match word {
        Some(Word::Channel(channel)) => Some(channel),
        Some(Word::Constant(_)) => None,
        Some(Word::Call(_)) => None,
        Some(Word::Form(_)) => None,
        Some(Word::Colour) => None,
        None => None,
    }
}

fn component_in(word: Option<Word>) -> Option<Component>
    ensures { result ≡ component_in word }
{
    match word {
        Some(Word::Constant(Constant::X)) => Some(Component::Axis(Axis::X)),
        Some(Word::Constant(Constant::Y)) => Some(Component::Axis(Axis::Y)),
        Some(Word::Constant(Constant::Z)) => Some(Component::Axis(Axis::Z)),
        Some(Word::Channel(channel)) => Some(Component::Channel(channel)),
        _ => None,
    }
}

/// The number of a colour that this word names.
pub fn channel_of(word: &[u8]) -> Option<Channel>
    ensures { result ≡ channel_of word.now }
{
    channel_in(word_of(word))
}

/// What this word names behind a dot.
pub fn component_of(word: &[u8]) -> Option<Component>
    ensures { result ≡ component_of word.now }
{
    component_in(word_of(word))
}

/// What kind of word of expressions a word is.
#[derive(Clone, Copy, Debug, PartialEq, Eq)]
pub enum WordClass {
    /// It stands for a value, as `pi`.
    Value,
    /// It calls a function, as `sqrt`.
    Call,
    /// It begins a colour, as `color`, `rgb` or `red`.
    Colour,
}

/// The class of a word of expressions; none for each other word.
pub fn word_class(word: &[u8]) -> Option<WordClass>
    ensures { result ≡ class_of word.now }
{
    match word_of(word) {
        Some(Word::Constant(_)) => Some(WordClass::Value),
        Some(Word::Call(_)) => Some(WordClass::Call),
        Some(Word::Colour) => Some(WordClass::Colour),
        Some(Word::Form(_)) => Some(WordClass::Colour),
        Some(Word::Channel(_)) => Some(WordClass::Colour),
        None => None,
    }
}
