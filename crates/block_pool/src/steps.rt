//! The steps of a seat on the pool's table: one atomic event each.
ghost use Rattle.std.specs.Prelude.{◌≡◌, ◌≢◌, ◌⊎◌, ◌↔◌, ℕ, ◌+◌, ◌<◌, ◌≤◌, ◌/◌, ◌%◌, ◌^◌, true, false, List, length, Some, None, IfSome, IsTrue, [], ◌∷◌, bit_or, slice_index};
ghost use Rattle.std.specs.Int.{bit_at};
ghost use Rattle.block_pool.specs.Counting.{times, mark_in};
ghost use Rattle.block_pool.specs.Rule.{IsFair, mark_words};
ghost use Rattle.block_pool.specs.Steps.{IsLent};
ghost use Rattle.block_pool.specs.Views.{list_of, IsPlace, IsCommitted, IsDrawnBy, StandsBelow, words_known, drew, in_turn, missed, read, kept, lifted, marked, gave, parted, part_of, joined, knowing, IsMarking, MarksDrawn};

use crate::ordered::Ordered;
use crate::plays::{Draw, Give, Keep, Lift, Look, Mark, Merge, Part, Read, Turn};
use crate::rule::Rule;
use crate::view::{Terms, View};
use atomic_table::{Seat, Shared};

pub type Common<K, P> = Shared<Option<P>, View<K>, Terms<K>, Rule<P>>;

pub type Place<K, P> = Seat<Option<P>, View<K>>;

/// Draws the next number.
pub fn draw<K, P: Ordered<K>>(shared: &Common<K, P>, place: &mut Place<K, P>) -> u64
    requires table { place.old.table_id ≡ shared.now.table_id }
    requires words { shared.now.table_id.words ≡ 2 + mark_words (length (list_of shared.now.key)) }
    requires told { place.old.me.0.terms ≡ Some shared.now.key }
    requires part { 0 < place.old.me.0.parts }
    requires fresh { place.old.me.0.through ≡ false }
    ensures same { (place.new.table_id ≡ place.old.table_id) × (place.new.id ≡ place.old.id) }
    ensures drew { place.new.me ≡ (drew shared.now.key place.old.me.0 result, place.old.me.1) }
{
    shared.fetch_add::<Draw>(place, 0, 1)
}

/// Asks for the pen. True where the seat has the turn now; else another seat has it.
pub fn turn<K, P: Ordered<K>>(shared: &Common<K, P>, place: &mut Place<K, P>) -> bool
    requires table { place.old.table_id ≡ shared.now.table_id }
    requires words { shared.now.table_id.words ≡ 2 + mark_words (length (list_of shared.now.key)) }
    requires told { place.old.me.0.terms ≡ Some shared.now.key }
    requires part { 0 < place.old.me.0.parts }
    requires idle { place.old.me.0.turn ≡ false }
    ensures same { (place.new.table_id ≡ place.old.table_id) × (place.new.id ≡ place.old.id) }
    ensures turn { result ≡ true → place.new.me ≡ (in_turn place.old.me.0, place.old.me.1) }
    ensures missed { result ≡ false → place.new.me ≡ (missed place.old.me.0, place.old.me.1) }
    ensures others { result ≡ false → place.old.me.0.parts ≢ shared.now.key.callers }
{
    let found = shared.swap::<Turn>(place, 1, 1);
    found == 0
}

/// Reads the next mark word.
pub fn read<K, P: Ordered<K>>(shared: &Common<K, P>, place: &mut Place<K, P>, word: usize)
    requires table { place.old.table_id ≡ shared.now.table_id }
    requires words { shared.now.table_id.words ≡ 2 + mark_words (length (list_of shared.now.key)) }
    requires turn { place.old.me.0.turn ≡ true }
    requires word { (word ≡ 2 + length place.old.me.0.known) × (word < shared.now.table_id.words) }
    ensures same { (place.new.table_id ≡ place.old.table_id) × (place.new.id ≡ place.old.id) }
    ensures read { (found : ℕ) × (place.new.me ≡ (read place.old.me.0 found, place.old.me.1)) }
{
    shared.load::<Read>(place, word);
}

/// Reads a mark word again, which hasn't changed.
pub fn look<K, P: Ordered<K>>(shared: &Common<K, P>, place: &mut Place<K, P>, j: usize) -> u64
    requires table { place.old.table_id ≡ shared.now.table_id }
    requires words { shared.now.table_id.words ≡ 2 + mark_words (length (list_of shared.now.key)) }
    requires told { place.old.me.0.terms ≡ Some shared.now.key }
    requires turn { place.old.me.0.turn ≡ true }
    requires known { length place.old.me.0.known ≡ mark_words (length (list_of shared.now.key)) }
    requires word { j < mark_words (length (list_of shared.now.key)) }
    requires room { j < 2 ^ 63 }
    ensures same { (place.new.table_id ≡ place.old.table_id) × (place.new.id ≡ place.old.id) × (place.new.me ≡ place.old.me) }
    ensures value { result ≡ words_known place.old.me.0 j }
    ensures fair { IsFair P.was_block P.knew (list_of shared.now.key) shared.now.key.start.value }
{
    shared.load::<Look>(place, 2 + j)
}

/// Reads the next number and keeps it.
pub fn keep<K, P: Ordered<K>>(shared: &Common<K, P>, place: &mut Place<K, P>)
    requires table { place.old.table_id ≡ shared.now.table_id }
    requires words { shared.now.table_id.words ≡ 2 + mark_words (length (list_of shared.now.key)) }
    requires turn { place.old.me.0.turn ≡ true }
    ensures same { (place.new.table_id ≡ place.old.table_id) × (place.new.id ≡ place.old.id) }
    ensures kept { (found : ℕ) × (place.new.me ≡ (kept place.old.me.0 found, place.old.me.1)) }
{
    shared.load::<Keep>(place, 0);
}

/// Takes the pen out of its place, and moves it to the caller.
pub fn lift<K, P: Ordered<K>>(shared: &Common<K, P>, place: &mut Place<K, P>) -> Option<P>
    requires table { place.old.table_id ≡ shared.now.table_id }
    requires words { shared.now.table_id.words ≡ 2 + mark_words (length (list_of shared.now.key)) }
    requires told { place.old.me.0.terms ≡ Some shared.now.key }
    requires turn { place.old.me.0.turn ≡ true }
    requires down { place.old.me.0.lifted ≡ false }
    requires known { length place.old.me.0.known ≡ mark_words (length (list_of shared.now.key)) }
    requires empty { place.old.me.1 ≡ [] }
    ensures same { (place.new.table_id ≡ place.old.table_id) × (place.new.id ≡ place.old.id) }
    ensures lifted { place.new.me ≡ (lifted place.old.me.0, (0, None) ∷ []) }
    ensures pen { (pen : P) × (result ≡ Some pen) × IsLent P.in_order P.knows P.is_tried P.was_block P.knew shared.now.key place.old.me.0 pen }
{
    shared.swap::<Lift>(place, 1, 1);
    shared.exchange(place, 0, None)
}

/// Marks a number that the seat drew.
pub fn mark<K, P: Ordered<K>>(shared: &Common<K, P>, place: &mut Place<K, P>, i: usize)
    requires table { place.old.table_id ≡ shared.now.table_id }
    requires words { shared.now.table_id.words ≡ 2 + mark_words (length (list_of shared.now.key)) }
    requires up { place.old.me.0.lifted ≡ true }
    requires known { length place.old.me.0.known ≡ mark_words (length (list_of shared.now.key)) }
    requires number { i < length (list_of shared.now.key) }
    requires clear { mark_in (words_known place.old.me.0) i ≡ 0 }
    requires mine { 0 < times i place.old.me.0.drawn }
    ensures same { (place.new.table_id ≡ place.old.table_id) × (place.new.id ≡ place.old.id) }
    ensures marked { place.new.me ≡ (marked place.old.me.0 i (i / 64) (bit_or (words_known place.old.me.0 (i / 64)) (2 ^ (i % 64))), place.old.me.1) }
{
    let mask = 1u64 << (i % 64);
    shared.fetch_or::<Mark>(place, 2 + i / 64, mask);
}

/// Moves the pen into its place again.
pub fn give<K, P: Ordered<K>>(shared: &Common<K, P>, place: &mut Place<K, P>, pen: P)
    requires table { place.old.table_id ≡ shared.now.table_id }
    requires words { shared.now.table_id.words ≡ 2 + mark_words (length (list_of shared.now.key)) }
    requires up { place.old.me.0.lifted ≡ true }
    requires known { length place.old.me.0.known ≡ mark_words (length (list_of shared.now.key)) }
    requires hand { place.old.me.1 ≡ (0, None) ∷ [] }
    requires order { P.in_order pen shared.now.key.start.value }
    requires committed { (x : ℕ) → P.knows pen x ↔ IsCommitted P.knew shared.now.key (words_known place.old.me.0) x }
    requires tried { (x : ℕ) → P.is_tried pen x → ((k : ℕ) × (place.old.me.0.kept ≡ Some k) × StandsBelow shared.now.key k x) ⊎ IsDrawnBy shared.now.key place.old.me.0 x }
    ensures same { (place.new.table_id ≡ place.old.table_id) × (place.new.id ≡ place.old.id) }
    ensures gave { place.new.me ≡ (gave place.old.me.0, []) }
{
    let nothing = shared.exchange(place, 0, Some(pen));
    let None = nothing else { unreachable!() };
    shared.swap::<Give>(place, 1, 0);
}

/// Gives one part away.
pub fn part<K, P: Ordered<K>>(shared: &Common<K, P>, place: &mut Place<K, P>) -> Place<K, P>
    requires table { place.old.table_id ≡ shared.now.table_id }
    requires words { shared.now.table_id.words ≡ 2 + mark_words (length (list_of shared.now.key)) }
    requires idle { place.old.me.0.turn ≡ false }
    requires more { 1 < place.old.me.0.parts }
    ensures same { (place.new.table_id ≡ place.old.table_id) × (place.new.id ≡ place.old.id) × (place.new.me ≡ (parted place.old.me.0, place.old.me.1)) }
    ensures new { (result.table_id ≡ place.old.table_id) × (result.me ≡ (part_of place.old.me.0, [])) }
{
    shared.split_seat::<Part>(place)
}

/// Takes in another seat.
pub fn merge<K, P: Ordered<K>>(shared: &Common<K, P>, place: &mut Place<K, P>, other: Place<K, P>)
    requires table { (place.old.table_id ≡ shared.now.table_id) × (other.table_id ≡ shared.now.table_id) }
    requires words { shared.now.table_id.words ≡ 2 + mark_words (length (list_of shared.now.key)) }
    requires idle { (place.old.me.0.turn ≡ false) × (other.me.0.turn ≡ false) }
    requires part { 0 < place.old.me.0.parts }
    requires empty { other.me.1 ≡ [] }
    ensures same { (place.new.table_id ≡ place.old.table_id) × (place.new.id ≡ place.old.id) × (place.new.me ≡ (joined place.old.me.0 other.me.0, place.old.me.1)) }
{
    shared.join_seat::<Merge>(place, other);
}

/// Reads all mark words in turn.
pub fn read_all<K, P: Ordered<K>>(shared: &Common<K, P>, place: &mut Place<K, P>, words: usize)
    requires table { place.old.table_id ≡ shared.now.table_id }
    requires words { shared.now.table_id.words ≡ 2 + mark_words (length (list_of shared.now.key)) }
    requires count { words ≡ shared.now.table_id.words }
    requires turn { place.old.me.0 ≡ in_turn place.old.me.0 }
    ensures same { (place.new.table_id ≡ place.old.table_id) × (place.new.id ≡ place.old.id) }
    ensures read { (known : List ℕ) × (length known ≡ mark_words (length (list_of shared.now.key))) × (place.new.me ≡ (knowing place.old.me.0 known, place.old.me.1)) }
{
    for word in 2..words {
        read(shared, place, word);
    }
}

/// Whether the bit of a number is set in its mark word.
#[inline(always)]
fn is_marked(word: u64, i: usize) -> bool
    ensures { IsTrue result ↔ (bit_at word (i % 64) ≡ 1) }
{
    (word >> (i % 64)) & 1 == 1
}

/// Marks one number where the pen knows its block open and it isn't marked yet.
fn mark_open<K, P: Ordered<K>>(
    shared: &Common<K, P>,
    place: &mut Place<K, P>,
    i: usize,
    block: u32,
    pen: &P,
)
    requires table { place.old.table_id ≡ shared.now.table_id }
    requires words { shared.now.table_id.words ≡ 2 + mark_words (length (list_of shared.now.key)) }
    requires few { i < 2 ^ 63 }
    requires number { IsPlace shared.now.key block i }
    requires told { place.old.me.0.terms ≡ Some shared.now.key }
    requires up { (place.old.me.0.lifted ≡ true) × (place.old.me.0.turn ≡ true) }
    requires known { length place.old.me.0.known ≡ mark_words (length (list_of shared.now.key)) }
    requires order { P.in_order pen.now shared.now.key.start.value }
    requires opened { P.knows pen.now block → IsCommitted P.knew shared.now.key (words_known place.old.me.0) block ⊎ IsDrawnBy shared.now.key place.old.me.0 block }
    requires kept { mark_in (words_known place.old.me.0) i ≡ 1 → P.knows pen.now block }
    ensures same { (place.new.table_id ≡ place.old.table_id) × (place.new.id ≡ place.old.id) × (place.new.me.1 ≡ place.old.me.1) }
    ensures view { IsMarking place.old.me.0 place.new.me.0 }
    ensures here { P.knows pen.now block ↔ (mark_in (words_known place.new.me.0) i ≡ 1) }
    ensures drawn { MarksDrawn (P.knows pen.now) (list_of shared.now.key) place.old.me.0 place.new.me.0 }
    ensures marked { P.knows pen.now block → (0 < times i place.new.me.0.marked) ⊎ (mark_in (words_known place.old.me.0) i ≡ 1) }
    ensures others { (k : ℕ) → k ≢ i → mark_in (words_known place.new.me.0) k ≡ mark_in (words_known place.old.me.0) k }
{
    let word = look(shared, place, i / 64);
    if is_marked(word, i) {
        return;
    }
    if !pen.is_open(block) {
        return;
    }
    mark(shared, place, i);
}

/// Marks each number whose block the pen knows open, where it isn't marked yet.
pub fn mark_all<K, P: Ordered<K>>(
    shared: &Common<K, P>,
    place: &mut Place<K, P>,
    todo: &[u32],
    pen: &P,
)
    requires table { place.old.table_id ≡ shared.now.table_id }
    requires words { shared.now.table_id.words ≡ 2 + mark_words (length (list_of shared.now.key)) }
    requires list { todo.now ≡ list_of shared.now.key }
    requires few { length todo.now < 2 ^ 63 }
    requires told { place.old.me.0.terms ≡ Some shared.now.key }
    requires up { (place.old.me.0.lifted ≡ true) × (place.old.me.0.turn ≡ true) }
    requires known { length place.old.me.0.known ≡ mark_words (length (list_of shared.now.key)) }
    requires order { P.in_order pen.now shared.now.key.start.value }
    requires opened { (x : ℕ) → P.knows pen.now x → IsCommitted P.knew shared.now.key (words_known place.old.me.0) x ⊎ IsDrawnBy shared.now.key place.old.me.0 x }
    requires kept { (x : ℕ) → IsCommitted P.knew shared.now.key (words_known place.old.me.0) x → P.knows pen.now x }
    ensures same { (place.new.table_id ≡ place.old.table_id) × (place.new.id ≡ place.old.id) × (place.new.me.1 ≡ place.old.me.1) }
    ensures view { IsMarking place.old.me.0 place.new.me.0 }
    ensures drawn { MarksDrawn (P.knows pen.now) (list_of shared.now.key) place.old.me.0 place.new.me.0 }
    ensures marked { (i : ℕ) → i < length (list_of shared.now.key) → P.knows pen.now (slice_index (list_of shared.now.key) i) → (0 < times i place.new.me.0.marked) ⊎ (mark_in (words_known place.old.me.0) i ≡ 1) }
    ensures committed { (x : ℕ) → P.knows pen.now x ↔ IsCommitted P.knew shared.now.key (words_known place.new.me.0) x }
{
    for (i, block) in todo.iter().enumerate() {
        mark_open(shared, place, i, *block, pen);
    }
}
