// The first strike of a shape on a path.
ghost use Rattle.std.specs.Prelude.{◌≡◌, ℕ, ◌<◌, ◌≤◌, length, IfSome, IfNone};
ghost use Rattle.box_probe.specs.Probes.{IsProbe};
ghost use Rattle.csg_hits.specs.Outlooks.{IsFirstIn, IsOutlook, IsQuiet};
ghost use Rattle.csg_hits.specs.Ready.{leaves_of};
ghost use Rattle.csg_hits.specs.Rows.{IsFilled, IsRight};
ghost use Rattle.csg_hits.specs.Surfaces.{shape_on};

use crate::outlook::Outlook;
use crate::ready::ReadyLeaf;
use crate::row::Row;
use crate::search::{Strike, first_of_leaf, first_of_shape};
use box_probe::Probe;
use scene_model::Shape;
use shapes::Path;

/// Writes the rows that say how a shape is behind t, and tells what it is at t. Parts that don't matter
/// since the group fails on all the path aren't asked.
fn fill(
    shape: &Shape,
    leaves: &[ReadyLeaf],
    path: &Path,
    probe: &Probe,
    rows: &mut [Row],
    t: u64,
) -> Outlook
    requires room { length rows.old ≡ length leaves.now }
    requires probe { IsProbe probe.now path.now.ray }
    requires begun { t < path.now.end }
    ensures kept { (n : ℕ) → IsRight (leaves_of leaves.now) path.now.ray path.now.end rows.old n
        → IsRight (leaves_of leaves.now) path.now.ray path.now.end rows.new n }
    ensures filled { IsFilled (leaves_of leaves.now) path.now.ray t path.now.end rows.new shape.now }
    ensures outlook { IsOutlook (shape_on (leaves_of leaves.now) path.now.ray shape.now) t path.now.end result }
    ensures len { length rows.new ≡ length leaves.now }
{
    match shape {
        Shape::Leaf(number) => match leaves.get(*number as usize) {
            Some(leaf) => {
                let row = leaf.row(path, probe);
                rows[*number as usize] = row;
                Outlook::of_row(&row, *number, t)
            }
            None => Outlook::never(),
        },
        Shape::Group { op, parts, inverse } => {
            let mut all = Outlook::never();
            for (index, part) in parts.iter().enumerate() {
                let found = fill(part, leaves, path, probe, rows, t);
                all = all.with_part(index, *op, found);
                if all.is_settled(*op, path.end) {
                    return all.as_group(*op, *inverse);
                }
            }
            all.as_group(*op, *inverse)
        }
    }
}

/// The first strike of a group, from a number on, on a path.
fn first_of_group(
    shape: &Shape,
    leaves: &[ReadyLeaf],
    path: &Path,
    probe: &Probe,
    rows: &mut [Row],
    from: u64,
) -> Option<Strike>
    requires room { length rows.old ≡ length leaves.now }
    requires probe { IsProbe probe.now path.now.ray }
    requires positive { 1 ≤ from }
    ensures found { IfSome result
        (IsFirstIn (λ t. (shape_on (leaves_of leaves.now) path.now.ray shape.now t).strikes) from path.now.end) }
    ensures none { IfNone result
        (IsQuiet (λ t. (shape_on (leaves_of leaves.now) path.now.ray shape.now t).strikes) from path.now.end) }
    ensures len { length rows.new ≡ length leaves.now }
{
    if from >= path.end {
        return None;
    }
    let start = fill(shape, leaves, path, probe, rows, from - 1).next;
    first_of_shape(shape, rows, from, start, path.end)
}

/// The first strike of a shape, from a number on, on a path.
pub fn first_on_path(
    shape: &Shape,
    leaves: &[ReadyLeaf],
    path: &Path,
    probe: &Probe,
    rows: &mut [Row],
    from: u64,
) -> Option<Strike>
    requires room { length rows.old ≡ length leaves.now }
    requires probe { IsProbe probe.now path.now.ray }
    requires positive { 1 ≤ from }
    ensures found { IfSome result
        (IsFirstIn (λ t. (shape_on (leaves_of leaves.now) path.now.ray shape.now t).strikes) from path.now.end) }
    ensures none { IfNone result
        (IsQuiet (λ t. (shape_on (leaves_of leaves.now) path.now.ray shape.now t).strikes) from path.now.end) }
    ensures len { length rows.new ≡ length leaves.now }
{
    match shape {
        Shape::Leaf(number) => match leaves.get(*number as usize) {
            Some(leaf) => first_of_leaf(&leaf.row(path, probe), *number, from, path.end),
            None => None,
        },
        Shape::Group { .. } => first_of_group(shape, leaves, path, probe, rows, from),
    }
}
