//! What a seat knows of the pool. Values of these types exist in proofs alone.
use std::collections::LinkedList;
use std::snapshot::Snapshot;

/// What the pool is told once, when it is made.
#[derive(Drop)]
pub struct Terms<K> {
    /// The blocks to trace, all different.
    pub todo: Snapshot<Vec<u32>>,
    /// How many parts all seats have together.
    pub callers: u64,
    pub start: Snapshot<K>,
}

/// The part of a seat in the pool's history.
pub struct View<K> {
    /// None for a seat that was merged into another one.
    pub terms: Option<Terms<K>>,
    pub parts: u64,
    /// The numbers that the seat drew, each the place of a block in the list.
    pub drawn: LinkedList<u64>,
    /// Those of them whose blocks it committed.
    pub marked: LinkedList<u64>,
    /// It drew a number behind the list's end.
    pub through: bool,
    /// How often it found that the pen is out.
    pub misses: u64,
    /// It has the right to the pen.
    pub turn: bool,
    /// It has taken the pen out of its place.
    pub lifted: bool,
    /// The mark words that it read since it has the turn.
    pub known: LinkedList<u64>,
    /// The next number as it read it since it has the turn.
    pub kept: Option<u64>,
}
