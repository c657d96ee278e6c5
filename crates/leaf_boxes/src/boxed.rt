// What has a box.
ghost use Rattle.std.specs.Prelude.{◌≡◌};

use crate::bounds::Box3;

/// What has a box along the world's axes.
pub trait Boxed {
    ghost use Rattle.leaf_boxes.specs.declared.bounds.Box3.{Box3};

    ghost extent: { Self → Box3 };

    /// The box.
    fn bounds(&self) -> Box3
        ensures { result ≡ extent self.now };
}

impl Boxed for Box3 {
    ghost extent = { λ found. found };

    fn bounds(&self) -> Box3 {
        *self
    }
}
