//! The pool that workers share.
ghost use Rattle.std.specs.Prelude.{◌≡◌, ◌+◌, ◌<◌, ◌^◌, length};
ghost use Rattle.block_pool.specs.Rule.{mark_words};
ghost use Rattle.block_pool.specs.Views.{list_of};

use crate::ordered::Ordered;
use crate::rule::Rule;
use crate::view::{Terms, View};
use atomic_table::Table;
use std::alloc::Global;

/// The blocks of a frame that are left to trace, and the pen.
/// Each block is drawn once, over all workers and in any interleaving of their steps.
pub struct Pool<K, P: Ordered<K>> {
    pub(crate) table: Table<Option<P>, View<K>, Terms<K>, Rule<P>, Global>,
    pub(crate) todo: Vec<u32>,
    ghost list: { todo.items ≡ list_of table.shared.key },
    ghost words: { table.shared.table_id.words ≡ 2 + mark_words (length (list_of table.shared.key)) },
    ghost slots: { table.shared.table_id.slots ≡ 1 },
    ghost few: { length (list_of table.shared.key) < 2 ^ 63 },
}
