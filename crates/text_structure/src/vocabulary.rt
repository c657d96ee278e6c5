// The words that a scene may give a meaning, by numbers.
ghost use Rattle.std.specs.Prelude.{◌≡◌, [], map, IfOk, OnOk};
ghost use Rattle.text_structure.specs.Marks.{number_in, with_word};

use indexmap::IndexSet;
use std::alloc::{AllocError, Global};
use std::marker::Model;

/// The words of all texts of an expansion, each once, in the order in which they came.
/// Contracts see them as a list.
#[derive(Drop)]
pub struct Words {
    set: IndexSet<Vec<u8>>,
}

impl Model for Words {
    ghost use Rattle.std.specs.Prelude.{ℕ, List, map};

    ghost Value = { List (List ℕ) };

    ghost view = { λ w. map (λ word. word.items) w.set.keys };
}

impl Words {
    /// No words.
    pub fn new(alloc: Global) -> Words
        ensures { result ≡ [] }
    {
        Words {
            set: IndexSet::new(alloc),
        }
    }

    /// The number of a word: its own, or the next one.
    pub fn number(&mut self, alloc: Global, word: &[u8]) -> Result<usize, AllocError>
        ensures number { IfOk result (λ number. number ≡ number_in self.old word.now) }
        ensures words { OnOk result (self.new ≡ with_word self.old word.now) }
    {
        if let Some(number) = self.set.get_index_of(word) {
            return Ok(number);
        }
        let spelling = Vec::from_slice(alloc, word)?;
        let (number, _) = self.set.insert_full(spelling)?;
        Ok(number)
    }
}
