//! What the pool asks of the pen that it passes.
ghost use Rattle.std.specs.Prelude.{ℕ, IsTrue, ◌↔◌};

/// A pen that is kept in order since a start of type `K`.
/// The pool passes it on and never looks inside.
pub trait Ordered<K> {
    // The pen is in order since the start.
    ghost in_order: { Self → K → Type 0 };
    // The number is that of a block of the pen's file.
    ghost is_block: { Self → ℕ → Type 0 };
    // The pen knows the block open.
    ghost knows: { Self → ℕ → Type 0 };
    // A failed commit of the pen named the block.
    ghost is_tried: { Self → ℕ → Type 0 };
    // The number was that of a block at the start.
    ghost was_block: { K → ℕ → Type 0 };
    // The pen knew the block open at the start.
    ghost knew: { K → ℕ → Type 0 };

    /// Whether the pen knows the block open.
    fn is_open(&self, index: u32) -> bool
        requires { is_block self.now index }
        ensures { IsTrue result ↔ knows self.now index };

    // A pen in order has the blocks of the start.
    ghost keeps_blocks: { (pen : Self) (start : K) → in_order pen start → (x : ℕ) → was_block start x → is_block pen x };
}
