// Who stands in a column of a row of cells, and which lines are there.
ghost use Rattle.std.specs.Prelude.{◌≡◌, not, ◌+◌, ◌/◌, ◌^◌, ◌≤◌, ◌<◌, eqb, get_or};
ghost use Rattle.rules.specs.Base.{half_up};
ghost use Rattle.row_strips.specs.Strip.{size_of, spot_of};
ghost use Rattle.row_strips.specs.Joint.{joint_by};

use crate::{Band, column};
use row_shapes::Spot;

// Kept (must stand): the rules own_of and size_of count nodes from 1, and 0 is none.
/// Who stands in a column, k + 1 for node k: a line down to it, a line down to a child, a line on to the right.
#[derive(Clone, Copy, Debug, PartialEq, Eq)]
pub struct Joint {
    pub k: usize,
    pub up: bool,
    pub child: bool,
    pub on: bool,
}

/// Column j, `first` and `over` being the first columns with a cell of the row and of the one above.
pub fn joint_at(
    j: usize,
    first: usize,
    over: usize,
    here: &[u16; 256],
    next: &[u16; 256],
    on: &[u16; 256],
) -> Joint
    requires { (j < 256) × (get_or here.now j 0 ≤ 256) }
    ensures { result ≡ joint_by first over here.now next.now on.now j }
{
    let k = here[j] as usize;
    let seen = first <= j;
    Joint {
        k,
        up: (over <= j) & (k != 0),
        child: seen & (next[j] != 0),
        on: seen & (on[j] != 0),
    }
}

/// The spot of a column of a band, with its centre at x; of no lines where nobody stands there.
pub fn spot_at(band: Band, joint: Joint, x: u32, lines: &[u32; 256], longest: &[u32; 256]) -> Spot
    requires key_at_most_256 { joint.k ≤ 256 }
    requires frame_width_in_range { (half_up (size_of longest.now joint.k) + 2 ≤ x) × (x + size_of longest.now joint.k + 3 < 2 ^ 32) }
    requires frame_height_in_range { (size_of lines.now joint.k / 2 + 1 ≤ band.middle) × (band.middle + size_of lines.now joint.k < 2 ^ 32) }
    ensures { result ≡ spot_of (not (eqb joint.k 0)) joint.up joint.child joint.on band.bend x band.middle (size_of lines.now joint.k) (size_of longest.now joint.k) }
{
    column::spot_of(
        joint.k != 0,
        joint.up,
        joint.child,
        joint.on,
        band.bend,
        x,
        band.middle,
        column::size_of(lines, joint.k),
        column::size_of(longest, joint.k),
    )
}
