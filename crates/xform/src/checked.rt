// The ranges of a transform's numbers.
ghost use Rattle.std.specs.Prelude.{◌≡◌, ◌^◌, IfOk, IsTrue};
ghost use Rattle.fix_math.specs.Matrices.{component, vector, matrix, entry, IsMatrixWithin};
ghost use Rattle.xform.specs.Transforms.{have_range, anchored, checked, IsPlaced};

use crate::rows::{WideRows, are_small, are_small_rows, is_small, known_vector, narrow};
use crate::transform::{Xform, XformFault};
use fix_math::Rows;

// The greatest entry of a transform, and the greatest component of an anchor.
const ENTRY_LIMIT: u64 = 1 << 44;

const ANCHOR_LIMIT: u128 = 1 << 28;

pub fn have_range(m: &Rows, n: &Rows) -> bool
    ensures test { result ≡ have_range m.now n.now }
    ensures m_fact { IsTrue result → IsMatrixWithin (2 ^ 44) m.now }
    ensures n_fact { IsTrue result → IsMatrixWithin (2 ^ 44) n.now }
{
    are_small_rows(m, ENTRY_LIMIT) && are_small_rows(n, ENTRY_LIMIT)
}

/// The transform of these numbers, where they are small enough.
pub fn checked(m: &WideRows, n: &WideRows, anchor: &[i128; 3]) -> Result<Xform, XformFault>
    ensures value { result ≡ checked (record {
      m = matrix (entry m.now);
      n = matrix (entry n.now);
      anchor = vector (component anchor.now);
    }) }
    ensures placed { IfOk result IsPlaced }
{
    if !(are_small(m, ENTRY_LIMIT as u128) && are_small(n, ENTRY_LIMIT as u128)) {
        return Err(XformFault::EntryRange);
    }
    with_anchor(narrow(m), narrow(n), anchor)
}

pub fn with_anchor(m: Rows, n: Rows, anchor: &[i128; 3]) -> Result<Xform, XformFault>
    requires m_small { IsMatrixWithin (2 ^ 44) m }
    requires n_small { IsMatrixWithin (2 ^ 44) n }
    ensures value { result ≡ anchored (record { m = m; n = n; anchor = vector (component anchor.now) }) }
    ensures placed { IfOk result IsPlaced }
{
    if !is_small(anchor, ANCHOR_LIMIT) {
        return Err(XformFault::AnchorRange);
    }
    Ok(Xform {
        m,
        n,
        anchor: known_vector(anchor),
    })
}
