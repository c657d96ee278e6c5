//! A worker's handle on the pool.
ghost use Rattle.std.specs.Prelude.{◌≡◌};

use crate::steps::Place;

/// A worker's handle on the pool: its part in the numbers that are drawn, and its right to ask for the pen.
#[derive(Drop)]
pub struct Seat<K, P> {
    pub(crate) place: Place<K, P>,
    pub(crate) through: bool,
    ghost said: { through ≡ place.me.0.through },
}
