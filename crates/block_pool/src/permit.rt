//! The right to trace one block.
ghost use Rattle.std.specs.Prelude.{◌≡◌};

/// Made by `Pool::claim` alone. It can't be copied, so each drawn block is traced once.
pub struct Permit {
    pub(crate) block: u32,
}

impl Permit {
    /// The number of the block.
    pub fn index(&self) -> u32
        ensures { result ≡ self.now.block }
    {
        self.block
    }

    /// Uses the permit up.
    pub fn spend(self) -> u32
        ensures { result ≡ self.block }
    {
        let Permit { block } = self;
        block
    }
}
