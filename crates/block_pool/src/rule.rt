//! The rule of the pool's table.
use crate::ordered::Ordered;
use crate::view::{Terms, View};
use atomic_table::TableRule;
use std::marker::PhantomData;

/// Word 0 is the next number, word 1 is 1 while the pen is out, and the others have a bit for each number, set once its block is committed.
/// The one slot has the pen.
pub struct Rule<P> {
    pen: PhantomData<P>,
}

impl<K, P: Ordered<K>> TableRule<Option<P>, View<K>, Terms<K>> for Rule<P> {
    ghost use Rattle.block_pool.specs.Rule.{IsRuled, first_view};

    ghost holds = { IsRuled P.in_order P.knows P.is_tried P.was_block P.knew };

    ghost first = { first_view };
}
