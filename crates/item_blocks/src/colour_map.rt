// Colour maps: colours at ascending places. (Reference manual, color_map)
ghost use Rattle.std.specs.Prelude.{◌≡◌, ◌≤◌, ◌<◌, ◌+◌, length, IfOk, IfErr, OnOk, [], ◌++◌, ◌∷◌};
ghost use Rattle.item_blocks.specs.declared.fault.ParseFault.TheVariants.{NoMemory};
ghost use Rattle.item_blocks.specs.Pigments.{last_at, ascending_of, entry_opened};

use crate::block::Block;
use crate::fault::{ParseFault, Wanted};
use crate::parameters::{any_float_of, colour};
use crate::tokens::{behind_comma, expression, passed, sign_at, unfit_at};
use crate::words::{BlockWord, Word};
use fix_math::Fix;
use scene_expr::{Settings, Value, place_at};
use scene_lexer::{Place, Token, sign};
use scene_model::{Entry, Rgbft};
use std::alloc::Global;
use std::marker::Model;

/// The greatest number of entries of a colour map.
const MOST_ENTRIES: usize = 256;

/// The entries of a colour map. Contracts see it as their list.
#[derive(Debug, Drop)]
pub struct ColourMap {
    entries: Vec<Entry>,
}

impl Model for ColourMap {
    ghost use Rattle.std.specs.Prelude.{List};
    ghost use Rattle.scene_model.specs.declared.texture.Entry.{Entry};

    ghost Value = { List Entry };

    ghost view = { λ map. map.entries.items };
}

impl ColourMap {
    /// A map without entries.
    pub fn new(alloc: Global) -> ColourMap
        ensures { result ≡ [] }
    {
        ColourMap {
            entries: Vec::new(alloc),
        }
    }

    /// The entries.
    pub fn entries(&self) -> &[Entry]
        ensures { result.now ≡ self.now }
    {
        &self.entries
    }

    /// The entries, in place of the map.
    pub fn into_entries(self) -> Vec<Entry>
        ensures { result.items ≡ self }
    {
        self.entries
    }

    /// A map with the same entries.
    pub fn copied(&self, alloc: Global) -> Result<ColourMap, ParseFault>
        ensures found { IfOk result (λ copy. copy ≡ self.now) }
        ensures memory { IfErr result (λ f. f ≡ NoMemory) }
    {
        match Vec::from_slice(alloc, &self.entries) {
            Ok(entries) => Ok(ColourMap { entries }),
            Err(_) => Err(ParseFault::NoMemory),
        }
    }

    fn count(&self) -> usize
        ensures { result ≡ length self.now }
    {
        self.entries.len()
    }

    fn push(&mut self, at: Fix, colour: Rgbft) -> Result<(), ParseFault>
        ensures found { OnOk result (self.new ≡ self.old ++ record { at = at; colour = colour } ∷ []) }
        ensures memory { IfErr result (λ f. f ≡ NoMemory) }
    {
        if self.entries.push(Entry { at, colour }).is_err() {
            return Err(ParseFault::NoMemory);
        }
        Ok(())
    }

    fn last_at(&self) -> Option<Fix>
        ensures { result ≡ last_at self.now }
    {
        match self.entries.last() {
            Some(entry) => Some(entry.at),
            None => None,
        }
    }

    /// A place in the map, which isn't below the one before it.
    fn ascending_of(&self, value: Value, place: Place) -> Result<Fix, ParseFault>
        ensures { result ≡ ascending_of self.now value place }
    {
        let at = any_float_of(value, place)?;
        match self.last_at() {
            Some(before) => {
                if before.raw() <= at.raw() {
                    Ok(at)
                } else {
                    Err(ParseFault::ValueRange { place })
                }
            }
            None => Ok(at),
        }
    }
}

/// The opening bracket of an entry, before which so many stand.
fn entry_opened(tokens: &[Token], count: usize, at: usize) -> Result<usize, ParseFault>
    ensures value { result ≡ entry_opened tokens.now count at }
    ensures within { IfOk result (λ next. (next ≡ at + 1) × (at < length tokens.now)) }
{
    if sign_at(tokens, at) != sign::OPEN_SQUARE {
        return Err(unfit_at(Wanted::MapBracket, tokens, at));
    }
    if count >= MOST_ENTRIES {
        return Err(ParseFault::Limit {
            which: 9,
            place: place_at(tokens, at),
        });
    }
    Ok(at + 1)
}

impl Block for ColourMap {
    ghost use Rattle.item_blocks.specs.Pigments.{map_kind};

    ghost kind = { map_kind };

    fn leads(word: Option<Word>) -> bool {
        matches!(word, Some(Word::Block(BlockWord::ColourMap)))
    }

    fn first(
        &mut self,
        _alloc: Global,
        _tokens: &[Token],
        _set: &Settings,
        _depths: usize,
        _led: bool,
        at: usize,
    ) -> Result<usize, ParseFault> {
        Ok(at)
    }

    fn statement(
        &mut self,
        alloc: Global,
        tokens: &[Token],
        set: &Settings,
        _depths: usize,
        at: usize,
    ) -> Result<usize, ParseFault> {
        let start = entry_opened(tokens, self.count(), at)?;
        let (value, comma) = expression(alloc, tokens, set, start)?;
        let place = self.ascending_of(value, place_at(tokens, start))?;
        let (colour, end) = colour(alloc, tokens, set, behind_comma(tokens, comma))?;
        let next = passed(sign::CLOSE_SQUARE, Wanted::MapBracket, tokens, end)?;
        self.push(place, colour)?;
        Ok(next)
    }

    fn lacks(&self) -> Option<Wanted> {
        if self.entries.is_empty() {
            Some(Wanted::MapBracket)
        } else {
            None
        }
    }
}
