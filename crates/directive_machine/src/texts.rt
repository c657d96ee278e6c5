// Where scene texts come from.
ghost use Rattle.std.specs.Prelude.{◌≡◌, ℕ, List, Option, Some, option_map, IfOk, IsErrOf};
ghost use Rattle.shelf.specs.Causes.{HasCause};
ghost use Rattle.directive_machine.specs.declared.texts.Text.{Text};
ghost use Rattle.directive_machine.specs.Texts.{text_of};

use fix_math::Str;
use std::alloc::Global;

/// Why a text can't be read.
#[derive(Clone, Copy, Debug, PartialEq, Eq)]
pub enum ReadFail {
    /// The reading failed; the count of faults rose.
    Failed,
    /// There is no memory for the text.
    NoMemory,
}

/// A text under its name.
#[derive(Drop)]
pub struct Text {
    pub name: Str,
    pub bytes: Str,
}

/// Texts by their names. It may tell all that it holds.
pub trait Texts {
    /// The texts, where it tells them.
    ghost held: { Self → Option (List Text) };

    /// How often a reading has failed.
    ghost faults: { Self → ℕ };

    /// The bytes of a text; none exactly where it isn't there.
    fn read(&mut self, alloc: Global, name: &[u8]) -> Result<Option<Vec<u8>>, ReadFail>
        ensures value { IfOk result (λ found. (texts : List Text) → held self.old ≡ Some texts
            → text_of texts name.now ≡ option_map (λ bytes. bytes.items) found) }
        ensures held { held self.new ≡ held self.old }
        ensures cause { HasCause (faults self.old) (faults self.new) (IsErrOf result ReadFail.Failed) };
}
