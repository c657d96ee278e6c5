// Texts in memory, with failures on demand.
ghost use Rattle.std.specs.Prelude.{◌≡◌, ◌+◌, ◌-◌, ◌^◌, ◌==◌, ◌↔◌, List, [], min, Option, Some, option_map, option_copied, IfOk, OnOk, OnErr, IsErrOf, if◌then◌else◌};
ghost use Rattle.shelf.specs.Causes.{HasCause};
ghost use Rattle.directive_machine.specs.declared.texts.Text.{Text};
ghost use Rattle.directive_machine.specs.Texts.{text_of, with_text};

use crate::texts::{ReadFail, Text, Texts};
use fix_math::Str;
use std::alloc::{AllocError, Global};

/// Texts in memory. It tells all that it holds.
#[derive(Drop)]
pub struct MemTexts {
    texts: Vec<Text>,
    countdown: u64,
    failures: u64,
}

impl MemTexts {
    pub fn new(alloc: Global) -> MemTexts
        ensures empty { result.texts.items ≡ [] }
        ensures failing { result.countdown ≡ 0 }
        ensures failures { result.failures ≡ 0 }
    {
        MemTexts {
            texts: Vec::new(alloc),
            countdown: 0,
            failures: 0,
        }
    }

    /// Holds a text under a name, in place of the one that was held under it.
    pub fn add(&mut self, alloc: Global, name: &[u8], bytes: &[u8]) -> Result<(), AllocError>
        ensures added { OnOk result (self.new.texts.items ≡ with_text self.old.texts.items name.now bytes.now) }
        ensures refused { OnErr result (self.new.texts.items ≡ self.old.texts.items) }
        ensures failing { self.new.countdown ≡ self.old.countdown }
        ensures failures { self.new.failures ≡ self.old.failures }
    {
        let text = Text {
            name: Str::new(name.to_vec(alloc)?),
            bytes: Str::new(bytes.to_vec(alloc)?),
        };
        self.texts.insert(0, text)?;
        Ok(())
    }

    /// From now on the reading of this number, from 1, fails, and no other.
    pub fn fail_on(&mut self, call: u64)
        ensures failing { self.new.countdown ≡ call }
        ensures texts { self.new.texts.items ≡ self.old.texts.items }
        ensures failures { self.new.failures ≡ self.old.failures }
    {
        self.countdown = call;
    }
}

/// The bytes of the first text of this name.
fn find<'a>(texts: &'a [Text], name: &[u8]) -> Option<&'a [u8]>
    ensures { option_copied result ≡ text_of texts.now name.now }
{
    for text in texts {
        if text.name.bytes() == name {
            return Some(text.bytes.bytes());
        }
    }
    None
}

impl Texts for MemTexts {
    ghost held = { λ texts. Some texts.texts.items };

    ghost faults = { λ texts. texts.failures };

    fn read(&mut self, alloc: Global, name: &[u8]) -> Result<Option<Vec<u8>>, ReadFail>
        ensures value { IfOk result (λ found. (texts : List Text) → Some self.old.texts.items ≡ Some texts
            → text_of texts name.now ≡ option_map (λ bytes. bytes.items) found) }
        ensures held { Some self.new.texts.items ≡ Some self.old.texts.items }
        ensures cause { HasCause self.old.failures self.new.failures (IsErrOf result ReadFail.Failed) }
        ensures fails { IsErrOf result ReadFail.Failed ↔ (self.old.countdown ≡ 1) }
        ensures next { self.new.countdown ≡ self.old.countdown - 1 }
        ensures counted { self.new.failures
            ≡ (if self.old.countdown == 1 then min (self.old.failures + 1) (2 ^ 64 - 1) else self.old.failures) }
    {
        let fails = self.countdown == 1;
        self.countdown = self.countdown.saturating_sub(1);
        if fails {
            self.failures = self.failures.saturating_add(1);
            return Err(ReadFail::Failed);
        }
        match find(&self.texts, name) {
            Some(bytes) => match bytes.to_vec(alloc) {
                Ok(copy) => Ok(Some(copy)),
                Err(_) => Err(ReadFail::NoMemory),
            },
            None => Ok(None),
        }
    }
}
