// The colours of pigments.
ghost use Rattle.std.specs.Prelude.{◌≡◌, ◌^◌};
ghost use Rattle.fix_math.specs.Matrices.{IsRowWithin, IsVectorWithin};
ghost use Rattle.scene_model.specs.Amounts.{IsRgbft};
ghost use Rattle.scene_model.specs.Looks.{IsPattern};
ghost use Rattle.xform.specs.Transforms.{IsPlaced};
ghost use Rattle.pigment.specs.Pigments.{pattern_colour, colour_of};

use crate::cells::{checker_place, shows_mortar};
use crate::hexagons::hexagon_place;
use crate::maps::{gradient_at, map_colour};
use crate::space::{Point, in_pattern};
use fix_math::V3;
use scene_model::{Pattern, Pigment, Rgbft};

/// The colour at a point of the world: red, green, blue, filter and transmit. (Reference manual, pigment)
#[tactic(auto, unfolding(crate::specs::Pigments::colour_of))]
pub fn color_at(p: &Pigment, at: Point) -> Rgbft
    requires pattern { IsPattern p.now.pattern }
    requires placed { IsPlaced p.now.xform }
    requires world { IsRowWithin (2 ^ 44) at }
    ensures value { result ≡ colour_of p.now at }
    ensures valid { IsRgbft result }
{
    match &p.pattern {
        Pattern::Plain(colour) => *colour,
        other => pattern_colour(other, &in_pattern(&p.xform, &at)),
    }
}

/// The colour at a point of the pattern's space.
fn pattern_colour(pattern: &Pattern, q: &V3) -> Rgbft
    requires pattern { IsPattern pattern.now }
    requires small { IsVectorWithin (2 ^ 43) q.now }
    ensures value { result ≡ pattern_colour pattern.now q.now }
    ensures valid { IsRgbft result }
{
    match pattern {
        Pattern::Plain(colour) => *colour,
        Pattern::Checker(colours) => colours[checker_place(q)],
        Pattern::Brick {
            mortar,
            brick,
            size,
            width,
        } => {
            if shows_mortar(*width, size, q) {
                *mortar
            } else {
                *brick
            }
        }
        Pattern::Hexagon(colours) => colours[hexagon_place(q)],
        Pattern::Gradient { axis, map } => map_colour(map, gradient_at(axis, q)),
    }
}
