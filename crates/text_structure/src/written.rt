// A text with the ends of its lists.
ghost use Rattle.std.specs.Prelude.{IsSome, ◌≡◌, ◌≢◌, ◌≤◌, ◌<◌, ◌^◌, ◌+◌, ◌*◌, [], length, slice_get, option_copied, IfOk, IfErr, OnOk, OnErr, Ok, Err};
ghost use Rattle.text_structure.specs.Marks.{marking, marked, kind_marking, word_marking};
ghost use Rattle.text_structure.specs.Texts.{Text, text, end_of, IsText};
ghost use Rattle.text_structure.specs.Tables.{IsTable};
ghost use Rattle.text_structure.specs.Levels.{structure};
ghost use Rattle.text_structure.specs.Turns.{directive_at};
ghost use Rattle.text_structure.specs.declared.levels.Misplaced.TheVariants.{NoMemory};

use crate::closer::{Closer, directive_at};
use crate::ends::fill;
use crate::levels::{Misplaced, check_structure};
use crate::mark::{Directive, Mark};
use crate::vocabulary::Words;
use crate::words::known_of;
use scene_lexer::{Kind, Token};
use std::alloc::{AllocError, Global};
use std::marker::Model;

/// No text has more tokens.
const MOST_TOKENS: usize = 1 << 24;

/// The tokens of a text, what they are to its directives, and where each of its lists ends.
#[derive(Drop)]
pub struct Written {
    tokens: Vec<Token>,
    marks: Vec<Mark>,
    ends: Vec<u32>,
}

impl Model for Written {
    ghost Value = { Text };

    ghost view = { λ w. text w.tokens.items w.marks.items w.ends.items };

    ghost invariant = { λ w. IsText (text w.tokens.items w.marks.items w.ends.items) };
}

/// What a token is to directives.
fn mark_of(alloc: Global, words: &mut Words, kind: &Kind) -> Result<Mark, AllocError>
    ensures { IfOk result (λ mark. kind_marking words.old kind.now ≡ marking mark words.new) }
{
    match kind {
        Kind::Word(word) => match known_of(word.bytes()) {
            Some(known) => Ok(Mark::Known(known)),
            None => {
                let number = words.number(alloc, word.bytes())?;
                Ok(Mark::Name(number))
            }
        },
        Kind::Number(_) => Ok(Mark::Number),
        Kind::Text(_) => Ok(Mark::Text),
        Kind::Sign(code) => Ok(Mark::Sign(*code)),
    }
}

/// What each token is to directives.
fn marks_of(alloc: Global, words: &mut Words, tokens: &[Token]) -> Result<Vec<Mark>, AllocError>
    ensures marks { IfOk result (λ marks. marked tokens.now [] words.old ≡ record { marks = marks.items; words = words.new }) }
    ensures length { IfOk result (λ marks. length marks.items ≡ length tokens.now) }
{
    let mut marks = Vec::with_capacity(alloc, tokens.len())?;
    for token in tokens {
        let mark = mark_of(alloc, words, &token.kind)?;
        marks.push(mark)?;
    }
    Ok(marks)
}

/// The ends of all lists.
fn ends_of(alloc: Global, marks: &[Mark]) -> Result<Vec<u32>, AllocError>
    requires { length marks.now ≤ 2 ^ 24 }
    ensures length { IfOk result (λ ends. length ends.items ≡ (length marks.now + 1) * 10) }
    ensures filled { IfOk result (λ ends. IsTable marks.now 0 ends.items) }
{
    let mut ends = vec![in alloc; 0u32; (marks.len() + 1) * 10]?;
    fill(marks, &mut ends);
    Ok(ends)
}

impl Written {
    /// A text whose directives nest.
    pub fn new(alloc: Global, words: &mut Words, tokens: Vec<Token>) -> Result<Written, Misplaced>
        ensures text { IfOk result (λ written. (written.tokens ≡ tokens.items) × (marked tokens.items [] words.old ≡ record { marks = written.marks; words = words.new })) }
        ensures nests { IfOk result (λ written. structure written.marks ≡ Ok 0) }
        ensures lists { IfOk result IsText }
        ensures fault { IfErr result (λ f. f ≢ NoMemory → structure (marked tokens.items [] words.old).marks ≡ Err f) }
    {
        if tokens.len() > MOST_TOKENS {
            return Err(Misplaced::NoMemory);
        }
        let Ok(marks) = marks_of(alloc, words, tokens.as_slice()) else {
            return Err(Misplaced::NoMemory);
        };
        check_structure(alloc, marks.as_slice())?;
        let Ok(ends) = ends_of(alloc, marks.as_slice()) else {
            return Err(Misplaced::NoMemory);
        };
        Ok(Written {
            tokens,
            marks,
            ends,
        })
    }

    /// How many tokens the text has.
    pub fn len(&self) -> usize
        ensures value { result ≡ length self.now.marks }
        ensures small { result ≤ 2 ^ 24 }
    {
        self.marks.len()
    }

    /// What the token at a place is to directives.
    #[inline(always)]
    pub fn mark(&self, at: usize) -> Option<Mark>
        ensures value { result ≡ slice_get self.now.marks at }
        ensures within { IsSome result → at < 2 ^ 24 }
    {
        self.marks.as_slice().get(at).copied()
    }

    /// The token at a place.
    #[inline(always)]
    pub fn token(&self, at: usize) -> Option<&Token>
        ensures { option_copied result ≡ slice_get self.now.tokens at }
    {
        self.tokens.as_slice().get(at)
    }

    /// All tokens.
    pub fn tokens(&self) -> &[Token]
        ensures { result.now ≡ self.now.tokens }
    {
        self.tokens.as_slice()
    }

    /// The marks of all tokens.
    pub fn marks(&self) -> &[Mark]
        ensures value { result.now ≡ self.now.marks }
        ensures small { length result.now ≤ 2 ^ 24 }
    {
        self.marks.as_slice()
    }

    /// The directive whose `#` stands at a place.
    pub fn directive(&self, at: usize) -> Option<Directive>
        ensures value { result ≡ directive_at self.now.marks at }
        ensures small { IsSome result → at < 2 ^ 24 }
    {
        if at < self.marks.len() {
            directive_at(self.marks.as_slice(), at)
        } else {
            None
        }
    }

    /// Where a list that begins at a place ends: at its closer, or where the body ends in which it stands.
    #[inline(always)]
    pub fn end(&self, closer: Closer, at: usize) -> usize
        ensures value { result ≡ end_of self.now closer at }
        ensures small { result ≤ 2 ^ 32 }
    {
        if at > self.marks.len() {
            return self.marks.len();
        }
        match self.ends.as_slice().get(at * 10 + closer.number()) {
            Some(end) => *end as usize,
            None => self.marks.len(),
        }
    }
}
