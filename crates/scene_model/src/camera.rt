// Cameras.
use fix_math::V3;

/// A camera. (Reference manual, camera) A pixel's ray goes from the location through a point of the
/// image's rectangle, which stands at `direction` and is spanned by `right` and `up`.
#[derive(Clone, Copy, Debug, PartialEq, Eq)]
pub struct Camera {
    pub location: V3,
    pub direction: V3,
    pub right: V3,
    pub up: V3,
    /// Whether all rays go in the one direction, in place of coming from the location.
    pub orthographic: bool,
}
