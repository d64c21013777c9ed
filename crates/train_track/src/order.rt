//! The order of labels: 0, -1, 1, -2, 2 and so on.
ghost use Rattle.std.specs.Prelude.{◌≡◌, ◌<◌, ◌*◌, pos, nat_lt};
ghost use Rattle.ideal_tri.specs.Labels.{edge_of};
ghost use Rattle.ideal_tri.specs.Triangulations.{IsLabel};
ghost use Rattle.ideal_tri.specs.Vertices.{rank, label_of_rank};
ghost use Rattle.ideal_tri.specs.declared.tri.TheConstants.{EDGES};
ghost use Rattle.train_track.specs.Branches.{are_before};

use ideal_tri::{Label, Tri};

/// The place of a label in their order.
pub(crate) fn rank(x: Label) -> u32
    requires { edge_of x < EDGES }
    ensures { result ≡ rank x }
{
    let first = 2 * x.edge();
    if x.get() < 0 { first + 1 } else { first }
}

/// The label at a place in their order.
pub(crate) fn label_of_rank(k: u32) -> Label
    requires { k < 2 * EDGES }
    ensures { result ≡ label_of_rank k }
{
    let first = Label::new((k / 2) as i32);
    if k % 2 == 0 { first } else { first.inverse() }
}

/// The label of an edge that isn't negative.
pub(crate) fn label_of_edge(e: u32) -> Label
    requires { e < EDGES }
    ensures { result ≡ pos e }
{
    Label::new(e as i32)
}

/// Whether a label comes before another.
pub(crate) fn is_less(tri: &Tri, x: Label, y: Label) -> bool
    requires { IsLabel tri.now x × IsLabel tri.now y }
    ensures { result ≡ nat_lt (rank x) (rank y) }
{
    let _edges = tri.edges();
    rank(x) < rank(y)
}

/// Whether two letters come before two others: by the first, then by the second.
#[tactic(auto, unfolding(crate::specs::Branches::are_before))]
pub(crate) fn are_before(tri: &Tri, x: Label, y: Label, u: Label, v: Label) -> bool
    requires first { IsLabel tri.now x × IsLabel tri.now y }
    requires second { IsLabel tri.now u × IsLabel tri.now v }
    ensures { result ≡ are_before x y u v }
{
    is_less(tri, x, u) || x == u && is_less(tri, y, v)
}
