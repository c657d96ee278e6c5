// The texts that an expansion reads, and their numbers.
ghost use Rattle.std.specs.Prelude.{◌≡◌, ◌≢◌, ◌<◌, ◌≤◌, ◌+◌, ◌^◌, ◌++◌, ◌∷◌, [], ℕ, List, length, Ok, Err, None, IfOk, IfErr, OnOk, IfSome};
ghost use Rattle.std.specs.List.{position_or_len};
ghost use Rattle.std.specs.Str.{bytes_eq};
ghost use Rattle.scene_lexer.specs.Tokens.{tokens_of};
ghost use Rattle.directive_machine.specs.Sources.{text_at, opened, unread, counted_bytes, listed_name, misplaced_stop, number_of_name, again, IsMisspelt, IsWritten, IsNew, IsOpened};
ghost use Rattle.scene_lexer.specs.declared.token.Token.{Token};
ghost use Rattle.directive_machine.specs.Course.{Given};
ghost use Rattle.directive_machine.specs.Expansions.{no_sources, start, IsExpandedFrom, Reaches};
ghost use Rattle.directive_machine.specs.Read.{sources_of};
ghost use Rattle.directive_machine.specs.declared.stop.Stop.TheVariants.{NoMemory, TextFault};

use crate::flat::Source;
use crate::machine::of_step;
use crate::plain::is_flat;
use crate::stop::Stop;
use fix_math::Str;
use scene_expr::place_at;
use scene_lexer::{LexFault, Place, Token, lex};
use std::alloc::Global;
use text_structure::{Misplaced, Words, Written};

/// The bytes of all texts of a scene, with their names and eight bytes for each.
const MOST_BYTES: usize = 16_777_216;

/// The names under which texts were found, the texts as read and as their directives see them, the words met, and
/// the bytes counted.
#[derive(Drop)]
pub struct Readings {
    pub names: Vec<Str>,
    pub files: Vec<Source>,
    pub written: Vec<Written>,
    pub words: Words,
    pub size: usize,
}

/// The number of the first name that is this one; none has it where that is the count of names.
fn number_of(names: &[Str], name: &[u8]) -> usize
    ensures value { result ≡ position_or_len (bytes_eq name.now) names.now }
    ensures within { result ≤ length names.now }
{
    let mut number = 0;
    for known in names {
        if name == known.bytes() {
            return number;
        }
        number += 1;
    }
    number
}

/// How many bytes a text counts at its first reading.
fn size_of(file: &Source) -> Result<usize, Stop>
    ensures size { IfOk result (λ size. size ≡ length file.now.name + 8 + length file.now.text) }
    ensures fault { IfErr result (λ f. f ≡ NoMemory) }
{
    let Some(front) = file.name.bytes().len().checked_add(8) else {
        return Err(Stop::NoMemory);
    };
    match front.checked_add(file.text.bytes().len()) {
        Some(size) => Ok(size),
        None => Err(Stop::NoMemory),
    }
}

/// A fault of a text's tokens.
fn stop_of(fault: LexFault) -> Stop
    ensures { result ≢ NoMemory → (fault ≢ LexFault.NoMemory) × (result ≡ Stop.Lex fault) }
{
    match fault {
        LexFault::NoMemory => Stop::NoMemory,
        LexFault::BadByte(place) => Stop::Lex(LexFault::BadByte(place)),
        LexFault::OpenComment(place) => Stop::Lex(LexFault::OpenComment(place)),
        LexFault::OpenString(place) => Stop::Lex(LexFault::OpenString(place)),
        LexFault::LongName(place) => Stop::Lex(LexFault::LongName(place)),
        LexFault::NumberRange(place) => Stop::Lex(LexFault::NumberRange(place)),
    }
}

/// A text's number, as places have it.
fn file_number(number: usize) -> Result<u32, Stop>
    ensures same { IfOk result (λ file. file ≡ number) }
    ensures fault { IfErr result (λ f. f ≡ NoMemory) }
{
    if number > MOST_BYTES {
        return Err(Stop::NoMemory);
    }
    Ok(number as u32)
}

/// The tokens of a text by its number.
fn tokens(alloc: Global, number: usize, text: &[u8]) -> Result<Vec<Token>, Stop>
    requires { length text.now ≤ 2 ^ 24 }
    ensures tokens { IfOk result (λ found. tokens_of number text.now ≡ Ok found.items) }
    ensures fault { IfErr result (λ f. f ≢ NoMemory → IsMisspelt number text.now f) }
{
    let file = file_number(number)?;
    match lex(alloc, file, text) {
        Ok(tokens) => Ok(tokens),
        Err(fault) => Err(stop_of(fault)),
    }
}

/// A text whose directives don't nest: the place of the one that is wrong.
fn misplaced(alloc: Global, number: usize, text: &[u8], fault: Misplaced) -> Stop
    requires { length text.now ≤ 2 ^ 24 }
    ensures { result ≢ NoMemory → (tokens : List Token) → tokens_of number text.now ≡ Ok tokens → result ≡ misplaced_stop tokens fault }
{
    match tokens(alloc, number, text) {
        Ok(tokens) => misplaced_in(tokens.as_slice(), fault),
        Err(_) => Stop::NoMemory,
    }
}

fn misplaced_in(tokens: &[Token], fault: Misplaced) -> Stop
    ensures { result ≡ misplaced_stop tokens.now fault }
{
    match fault {
        Misplaced::Stray(at) => Stop::Directive {
            kind: 3,
            place: place_at(tokens, at),
        },
        Misplaced::NoEnd(at) => Stop::Directive {
            kind: 2,
            place: place_at(tokens, at),
        },
        Misplaced::NoMemory => Stop::NoMemory,
    }
}

impl Readings {
    /// No texts.
    pub fn new(alloc: Global) -> Readings
        ensures { sources_of result ≡ no_sources }
    {
        Readings {
            names: Vec::new(alloc),
            files: Vec::new(alloc),
            written: Vec::new(alloc),
            words: Words::new(alloc),
            size: 0,
        }
    }

    /// The text of this number.
    pub fn text(&self, number: usize) -> Option<&Written>
        ensures { IfSome result (λ text. text_at (sources_of self.now) number ≡ text.now) }
    {
        self.written.as_slice().get(number)
    }

    /// How many tokens the text of this number has.
    pub fn length(&self, number: usize) -> Option<usize>
        ensures { IfSome result (λ count. length (text_at (sources_of self.now) number).marks ≡ count) }
    {
        match self.text(number) {
            Some(text) => Some(text.len()),
            None => None,
        }
    }

    /// The number of a text that is found under a name: its own, or the next one.
    fn number(&self, name: &[u8]) -> usize
        ensures { result ≡ number_of_name (sources_of self.now) name.now }
    {
        number_of(self.names.as_slice(), name)
    }

    /// How many texts were read.
    fn known(&self) -> usize
        ensures { result ≡ length (sources_of self.now).names }
    {
        self.names.as_slice().len()
    }

    /// Counts bytes that are read.
    fn count(&mut self, count: usize, place: Place) -> Result<(), Stop>
        ensures ok { OnOk result (counted_bytes count place (sources_of self.old) ≡ Ok (sources_of self.new)) }
        ensures fault { IfErr result (λ f. counted_bytes count place (sources_of self.old) ≡ Err (unread f (sources_of self.new))) }
        ensures small { OnOk result (count ≤ 2 ^ 24) }
    {
        let size = self.size.saturating_add(count);
        if size > MOST_BYTES {
            return Err(Stop::Limit { which: 4, place });
        }
        self.size = size;
        Ok(())
    }

    /// Lists a name at its first reading.
    fn list(&mut self, alloc: Global, name: &[u8]) -> Result<(), Stop>
        ensures ok { OnOk result (sources_of self.new ≡ listed_name name.now (sources_of self.old)) }
        ensures fault { IfErr result (λ f. f ≡ NoMemory) }
    {
        let Ok(name) = name.to_vec(alloc) else {
            return Err(Stop::NoMemory);
        };
        if self.names.push(Str::new(name)).is_err() {
            return Err(Stop::NoMemory);
        }
        Ok(())
    }

    /// Keeps a text.
    fn keep(&mut self, file: Source, written: Written) -> Result<(), Stop>
        ensures ok { OnOk result (sources_of self.new ≡ record (sources_of self.old) { files = self.old.files.items ++ file ∷ []; texts = self.old.written.items ++ written ∷ [] }) }
        ensures fault { IfErr result (λ f. f ≡ NoMemory) }
    {
        if self.files.push(file).is_err() {
            return Err(Stop::NoMemory);
        }
        if self.written.push(written).is_err() {
            return Err(Stop::NoMemory);
        }
        Ok(())
    }

    /// Keeps a text without marks.
    fn keep_flat(&mut self, file: Source) -> Result<(), Stop>
        ensures ok { OnOk result (sources_of self.new ≡ record (sources_of self.old) { files = self.old.files.items ++ file ∷ [] }) }
        ensures fault { IfErr result (λ f. f ≡ NoMemory) }
    {
        if self.files.push(file).is_err() {
            return Err(Stop::NoMemory);
        }
        Ok(())
    }

    /// Keeps a text of these tokens as its directives see it.
    fn keep_marked(
        &mut self,
        alloc: Global,
        number: usize,
        file: Source,
        tokens: Vec<Token>,
    ) -> Result<(), Stop>
        requires small { length file.text ≤ 2 ^ 24 }
        requires tokens { tokens_of number file.text ≡ Ok tokens.items }
        ensures ok { OnOk result (IsWritten number file (sources_of self.old) (Ok (sources_of self.new))) }
        ensures fault { IfErr result (λ f. f ≢ NoMemory → IsWritten number file (sources_of self.old) (Err (unread f (sources_of self.new)))) }
    {
        match Written::new(alloc, &mut self.words, tokens) {
            Ok(written) => {
                self.keep(file, written)?;
                Ok(())
            }
            Err(fault) => Err(misplaced(alloc, number, file.text.bytes(), fault)),
        }
    }

    /// Reads the tokens of a text, and keeps it as its directives see it.
    fn write(&mut self, alloc: Global, number: usize, file: Source) -> Result<(), Stop>
        requires { length file.text ≤ 2 ^ 24 }
        ensures ok { OnOk result (IsWritten number file (sources_of self.old) (Ok (sources_of self.new))) }
        ensures fault { IfErr result (λ f. f ≢ NoMemory → IsWritten number file (sources_of self.old) (Err (unread f (sources_of self.new)))) }
    {
        let tokens = tokens(alloc, number, file.text.bytes())?;
        self.keep_marked(alloc, number, file, tokens)?;
        Ok(())
    }

    /// Lists and counts a text that was not read before.
    fn enter(&mut self, alloc: Global, file: &Source, place: Place) -> Result<(), Stop>
        ensures ok { OnOk result (counted_bytes (length file.now.name + 8 + length file.now.text) place (listed_name file.now.name (sources_of self.old)) ≡ Ok (sources_of self.new)) }
        ensures fault { IfErr result (λ f. f ≢ NoMemory → counted_bytes (length file.now.name + 8 + length file.now.text) place (listed_name file.now.name (sources_of self.old)) ≡ Err (unread f (sources_of self.new))) }
        ensures small { OnOk result (length file.now.text ≤ 2 ^ 24) }
    {
        let size = size_of(file)?;
        self.list(alloc, file.name.bytes())?;
        self.count(size, place)?;
        Ok(())
    }

    /// Takes in a text that was not read before.
    fn begin(
        &mut self,
        alloc: Global,
        file: Source,
        place: Place,
        number: usize,
    ) -> Result<usize, Stop>
        ensures ok { IfOk result (λ found. IsNew file place number (sources_of self.old) (Ok (opened found (sources_of self.new)))) }
        ensures fault { IfErr result (λ f. f ≢ NoMemory → IsNew file place number (sources_of self.old) (Err (unread f (sources_of self.new)))) }
    {
        self.enter(alloc, &file, place)?;
        self.write(alloc, number, file)?;
        Ok(number)
    }

    /// Takes in the first text. One whose tokens begin nothing isn't kept as directives see it: its tokens are
    /// handed back.
    fn begin_first(
        &mut self,
        alloc: Global,
        file: Source,
        place: Place,
    ) -> Result<Option<Vec<Token>>, Stop>
        requires none { sources_of self.old ≡ no_sources }
        requires place { place ≡ start }
        ensures flat { IfOk result (λ found. IfSome found (λ tokens. (g : Given) → Reaches (IsExpandedFrom g file) (record { tokens = tokens.items; files = self.new.files.items; messages = []; names = self.new.names.items }))) }
        ensures kept { IfOk result (λ found. found ≡ None → IsNew file place 0 (sources_of self.old) (Ok (opened 0 (sources_of self.new)))) }
        ensures fault { IfErr result (λ f. f ≢ NoMemory → IsNew file place 0 (sources_of self.old) (Err (unread f (sources_of self.new)))) }
    {
        self.enter(alloc, &file, place)?;
        let tokens = tokens(alloc, 0, file.text.bytes())?;
        if is_flat(&tokens) {
            self.keep_flat(file)?;
            return Ok(Some(tokens));
        }
        self.keep_marked(alloc, 0, file, tokens)?;
        Ok(None)
    }

    /// Takes in the first text of all, and tells the tokens of one that comes to just these. Each other one has the
    /// number 0.
    pub fn open_first(
        &mut self,
        alloc: Global,
        file: Source,
        place: Place,
    ) -> Result<Option<Vec<Token>>, Stop>
        requires none { sources_of self.old ≡ no_sources }
        requires place { place ≡ start }
        ensures flat { IfOk result (λ found. IfSome found (λ tokens. (g : Given) → Reaches (IsExpandedFrom g file) (record { tokens = tokens.items; files = self.new.files.items; messages = []; names = self.new.names.items }))) }
        ensures kept { IfOk result (λ found. found ≡ None → IsOpened file place (sources_of self.old) (Ok (opened 0 (sources_of self.new)))) }
        ensures fault { IfErr result (λ f. f ≢ NoMemory → IsOpened file place (sources_of self.old) (Err (unread f (sources_of self.new)))) }
        ensures outside { IfErr result (λ f. f ≢ TextFault) }
    {
        match self.begin_first(alloc, file, place) {
            Ok(found) => Ok(found),
            Err(stop) => Err(of_step(stop)),
        }
    }

    /// Takes in a text that was read before: its bytes count again.
    fn go_back(&mut self, file: &Source, place: Place, number: usize) -> Result<usize, Stop>
        ensures ok { IfOk result (λ found. again file.now place number (sources_of self.old) ≡ Ok (opened found (sources_of self.new))) }
        ensures fault { IfErr result (λ f. again file.now place number (sources_of self.old) ≡ Err (unread f (sources_of self.new))) }
    {
        self.count(file.text.bytes().len(), place)?;
        Ok(number)
    }

    /// Takes in a text that was found, and tells its number. A limit is passed at the place.
    pub fn open(&mut self, alloc: Global, file: Source, place: Place) -> Result<usize, Stop>
        ensures ok { IfOk result (λ number. IsOpened file place (sources_of self.old) (Ok (opened number (sources_of self.new)))) }
        ensures fault { IfErr result (λ f. f ≢ NoMemory → IsOpened file place (sources_of self.old) (Err (unread f (sources_of self.new)))) }
        ensures outside { IfErr result (λ f. f ≢ TextFault) }
    {
        match self.take_in(alloc, file, place) {
            Ok(number) => Ok(number),
            Err(stop) => Err(of_step(stop)),
        }
    }

    fn take_in(&mut self, alloc: Global, file: Source, place: Place) -> Result<usize, Stop>
        ensures ok { IfOk result (λ number. IsOpened file place (sources_of self.old) (Ok (opened number (sources_of self.new)))) }
        ensures fault { IfErr result (λ f. f ≢ NoMemory → IsOpened file place (sources_of self.old) (Err (unread f (sources_of self.new)))) }
    {
        let number = self.number(file.name.bytes());
        if number < self.known() {
            let found = self.go_back(&file, place, number)?;
            Ok(found)
        } else {
            let found = self.begin(alloc, file, place, number)?;
            Ok(found)
        }
    }
}
