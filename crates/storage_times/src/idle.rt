//! A pen that opens no block.
ghost use Rattle.std.specs.Prelude.{ℕ, IsTrue, ◌↔◌};

use block_pool::Ordered;

/// A pen of a file whose blocks have all numbers. It knows none of them open.
#[derive(Drop)]
pub struct Idle;

impl Ordered<()> for Idle {
    ghost in_order = { λ _ _. Unit {0} };

    ghost is_block = { λ _ _. Unit {0} };

    ghost knows = { λ _ _. ⊥ };

    ghost is_tried = { λ _ _. ⊥ };

    ghost was_block = { λ _ _. Unit {0} };

    ghost knew = { λ _ _. ⊥ };

    fn is_open(&self, index: u32) -> bool
        ensures { IsTrue result ↔ ⊥ }
    {
        let _ = index;
        false
    }

    ghost keeps_blocks = { λ pen start _ x below. below };
}
