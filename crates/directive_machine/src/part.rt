// Parts of a text that are expanded, and what is made of each.
use fix_math::Fix;
use scope_tables::Macro;

/// The tokens of a text from `at` up to `end`.
#[derive(Clone, Copy, Debug, PartialEq, Eq)]
pub struct Span {
    pub at: usize,
    pub end: usize,
}

/// A `#while` as it stands in its text: the `(` of its condition, the condition, whether its `)` is there, the body.
#[derive(Clone, Copy, Debug, PartialEq, Eq)]
pub struct Circle {
    pub sign: usize,
    pub condition: Span,
    pub closed: bool,
    pub body: Span,
}

/// A `#for` as it stands in its text.
#[derive(Clone, Copy, Debug, PartialEq, Eq)]
pub struct Turns {
    pub name: usize,
    /// The place of the word `for`.
    pub word: usize,
    /// Where its head ends, and whether a `)` stands there.
    pub close: usize,
    pub closed: bool,
    pub body: Span,
}

/// A case of a `#switch` that is asked.
#[derive(Clone, Copy, Debug, PartialEq, Eq)]
pub struct Choice {
    /// The value of the switch.
    pub value: Fix,
    /// Where the body of its `#else` begins, if that came already.
    pub otherwise: Option<usize>,
    /// Where the head of the case ends, whether a `)` stands there, and where its body begins.
    pub close: usize,
    pub closed: bool,
    pub body: usize,
}

/// A call of a macro, at one of its arguments.
#[derive(Clone, Copy, Debug, PartialEq, Eq)]
pub struct Call {
    pub called: Macro,
    /// The number of the argument.
    pub index: usize,
    /// Where the arguments end, and whether a `)` stands there.
    pub close: usize,
    pub closed: bool,
}

/// What is made of a part once it is expanded.
#[derive(Clone, Copy, Debug, PartialEq, Eq)]
pub enum Then {
    /// The first text, or a body of an `#if`.
    Plain,
    /// The body of a macro, or an included text: its scope is left.
    Leave,
    /// A right side up to its semicolon.
    Bind {
        name: usize,
        local: bool,
    },
    /// A declared block; whether a semicolon follows.
    Hold {
        name: usize,
        local: bool,
        stop: bool,
    },
    /// The condition of an `#if` with its two bodies.
    Decide {
        held: Span,
        otherwise: Span,
    },
    /// The condition of a `#while`.
    Test(Circle),
    /// The body of a `#while`.
    Again(Circle),
    /// The value of a `#switch`, whose first case stands at this place.
    Choose(usize),
    /// The value of a `#case`.
    Case(Choice),
    /// The first number of a `#range`.
    Low(Choice),
    /// The second number of a `#range`.
    High(Choice, Fix),
    /// A body of a `#switch`; whether its `#else` came.
    Fall(bool),
    /// The first number of a `#for`.
    From(Turns),
    /// The last number of a `#for`, with the first.
    To(Turns, Fix),
    /// The step of a `#for`, with its first and last number.
    By(Turns, Fix, Fix),
    /// The body of a `#for`, with its number, the last one and the step.
    Turn(Turns, Fix, Fix, Fix),
    /// An argument that is evaluated.
    Pass(Call),
    /// An argument that is a block.
    Give(Call),
    /// An argument that refers to a name.
    Refer(Call, usize),
    /// No argument.
    Enter(Call),
    /// The text of a message, or of an `#error`; the place of its first token.
    Say {
        error: bool,
        at: usize,
    },
    /// The name of a text that is included; the place of its first token.
    Read(usize),
}

/// The tokens of a text from `at` up to `end` at a depth, and what is made of them.
#[derive(Clone, Copy, Debug, PartialEq, Eq)]
pub struct Part {
    pub text: usize,
    pub at: usize,
    pub end: usize,
    /// How many tokens were handed out before it.
    pub from: usize,
    pub depth: u32,
    /// Its closer stands at its end.
    pub closed: bool,
    /// What it stands in is kept aside from the flat list.
    pub outer: bool,
    pub then: Then,
}

/// What a token begins. A part that it opens is written where the caller says, since parts are too long to be handed
/// from function to function.
#[derive(Clone, Copy, Debug, PartialEq, Eq)]
pub enum Lead {
    /// Nothing more: the next token stands here.
    Step(usize),
    /// The end of the innermost switch or loop.
    Break,
    /// A part is expanded; behind it the next token stands here.
    Open(usize),
}

/// What comes behind an expanded part. A further part is written where the caller says.
#[derive(Clone, Copy, Debug, PartialEq, Eq)]
pub enum Rest {
    /// What stands around it, or the end of the innermost switch or loop.
    Done(bool),
    /// A further part.
    Further,
}

/// A part that is run, and the place where it stands.
#[derive(Clone, Copy, Debug, PartialEq, Eq)]
pub struct Frame {
    pub part: Part,
    pub at: usize,
}
