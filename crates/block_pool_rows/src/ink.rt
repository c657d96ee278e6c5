//! A pen in memory, which only notes the blocks that it is given.
ghost use Rattle.std.specs.Prelude.{◌≡◌, ◌<◌, ◌⊎◌, ℕ, IsTrue, ◌↔◌, slice_index_or, true, false};

use block_pool::Ordered;

/// A pen of 256 blocks, which fails after so many commits.
#[derive(Drop)]
pub struct Ink {
    pub open: [bool; 256],
    pub left: u32,
}

impl Ordered<()> for Ink {
    ghost in_order = { λ _ _. Unit {0} };

    ghost is_block = { λ _ x. x < 256 };

    ghost knows = { λ pen x. slice_index_or pen.open x false ≡ true };

    ghost is_tried = { λ _ _. ⊥ };

    ghost was_block = { λ _ x. x < 256 };

    ghost knew = { λ _ _. ⊥ };

    fn is_open(&self, index: u32) -> bool
        requires { index < 256 }
        ensures { IsTrue result ↔ (slice_index_or self.now.open index false ≡ true) }
    {
        self.open[index as usize]
    }

    ghost keeps_blocks = { λ pen start _ x below. below };
}

impl Ink {
    /// A pen that knows no block.
    pub fn new(left: u32) -> Ink
        ensures { (x : ℕ) → slice_index_or result.open x false ≡ false }
    {
        let open = [false; 256];
        Ink { open, left }
    }

    /// Notes a block. False where the pen fails.
    #[tactic(auto, using(crate::proofs::Noted::set_more, crate::proofs::Noted::set_kept))]
    pub fn commit(&mut self, block: u32) -> bool
        ensures more { (x : ℕ) → slice_index_or self.new.open x false ≡ true → (slice_index_or self.old.open x false ≡ true) ⊎ (x ≡ block) }
        ensures kept { (x : ℕ) → slice_index_or self.old.open x false ≡ true → slice_index_or self.new.open x false ≡ true }
    {
        if self.left == 0 {
            return false;
        }
        self.left -= 1;
        if block >= 256 {
            return true;
        }
        self.open[block as usize] = true;
        true
    }
}
