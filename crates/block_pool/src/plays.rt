//! What each kind of step tells its seat.
use crate::ordered::Ordered;
use crate::view::View;
use atomic_table::Play;
use std::marker::PhantomData;

/// The next number is drawn.
pub struct Draw;

impl<K, P> Play<Option<P>, View<K>> for Draw {
    ghost use Rattle.block_pool.specs.Steps.{draws};

    ghost then = { draws };
}

/// The pen is asked for.
pub struct Turn;

impl<K, P> Play<Option<P>, View<K>> for Turn {
    ghost use Rattle.block_pool.specs.Steps.{takes};

    ghost then = { takes };
}

/// The next mark word is read.
pub struct Read;

impl<K, P> Play<Option<P>, View<K>> for Read {
    ghost use Rattle.block_pool.specs.Steps.{reads};

    ghost then = { reads };
}

/// A mark word that is known is read again.
pub struct Look;

impl<K, P: Ordered<K>> Play<Option<P>, View<K>> for Look {
    ghost use Rattle.block_pool.specs.Steps.{looks};

    ghost then = { looks P.in_order P.knows P.is_tried P.was_block P.knew };
}

/// The next number is read.
pub struct Keep;

impl<K, P> Play<Option<P>, View<K>> for Keep {
    ghost use Rattle.block_pool.specs.Steps.{keeps_next};

    ghost then = { keeps_next };
}

/// The pen is taken out.
pub struct Lift;

impl<K, P: Ordered<K>> Play<Option<P>, View<K>> for Lift {
    ghost use Rattle.block_pool.specs.Steps.{lifts};

    ghost then = { lifts P.in_order P.knows P.is_tried P.was_block P.knew };
}

/// A number is marked.
pub struct Mark;

impl<K, P> Play<Option<P>, View<K>> for Mark {
    ghost use Rattle.block_pool.specs.Steps.{marks};

    ghost then = { marks };
}

/// The pen goes home.
pub struct Give;

impl<K, P> Play<Option<P>, View<K>> for Give {
    ghost use Rattle.block_pool.specs.Steps.{gives};

    ghost then = { gives };
}

/// One part is given away.
pub struct Part;

impl<K> atomic_table::Split<View<K>> for Part {
    ghost use Rattle.block_pool.specs.Views.{parted, part_of};

    ghost left = { parted };

    ghost right = { part_of };
}

/// Two seats become one.
pub struct Merge;

impl<K> atomic_table::Join<View<K>> for Merge {
    ghost use Rattle.block_pool.specs.Views.{joined, spent};

    ghost both = { joined };

    ghost spent = { spent };
}
