//! Relabellings, and the tests of a list of images.
ghost use Rattle.std.specs.Prelude.{◌≡◌, ◌<◌, ◌≤◌, ◌↔◌, length, map, take};
ghost use Rattle.std.specs.Prelude.{IsTrue, IfOk, IfErr, IfSome, IfNone, All};
ghost use Rattle.ideal_tri.specs.Labels.{edge_of};
ghost use Rattle.ideal_tri.specs.Triangulations.{edge_count, IsLabel, IsTriangulation};
ghost use Rattle.ideal_tri.specs.Relabellings.{image_of, hits, IsBijection, inverse_images};
ghost use Rattle.ideal_tri.specs.Relabellings.{IsCarried, IsRelabelling};
ghost use Rattle.relabel.specs.Refusals.{IsFirstOutside, IsLeastHitTwice, HitsNoneTwice};
ghost use Rattle.relabel.specs.Refusals.{IsLeastBroken};

use ideal_tri::{
    EDGES, Label, Tri, bijection_laws, hit_laws, inverse_images, relabelling_laws, triple_laws,
};
use std::marker::Model;

/// A relabelling of one ideal triangulation onto another with as many edges (after Bell's flipper):
/// a bijection of their labels that takes `-1 - x` to `-1 - y` where it takes `x` to `y`, and each
/// triangle to a triangle, up to rotation. It keeps the images of the labels 0, 1, .. in fixed
/// memory, and means nothing without the two triangulations.
#[derive(Clone, Copy)]
pub struct Relabelling {
    // the number of edges
    count: u32,
    // the images of the labels 0 to `count - 1`; zeros after the last
    images: [Label; EDGES],
}

/// Why a list is not the images of a relabelling. The tests are made in this order.
#[derive(Clone, Copy, Debug, PartialEq, Eq)]
pub enum RelabelError {
    /// The list hasn't one image for each edge; its length.
    WrongLength(u64),
    /// The first place, from 0, whose entry is no label of the target.
    NotLabel(u64),
    /// The least edge of the target that is hit twice or more.
    NotBijective(u64),
    /// The least triangle whose image is no triangle of the target.
    BreaksTriangle(u64),
}

impl Model for Relabelling {
    ghost use Rattle.std.specs.Prelude.{ℤ, List, ◌++◌, ◌-◌, length, take};
    ghost use Rattle.ideal_tri.specs.declared.tri.TheConstants.{EDGES};
    ghost use Rattle.relabel.specs.inside.LaidOut.{IsLaidOut, spare_slots, count_again};
    ghost use Rattle.relabel.specs.inside.LaidOut.{images_again};

    ghost Value = { List ℤ };

    ghost view = { λ a. take a.count a.images };

    ghost invariant = { λ a. IsLaidOut a.count a.images };

    ghost inverse = { λ xs. record {
      count = length xs;
      images = xs ++ spare_slots (EDGES - length xs);
    } };

    ghost inverse_ok = { λ a h i. record {
      count = count_again a.count a.images h i;
      images = images_again a.count a.images h i;
    } };
}

impl Relabelling {
    ghost use Rattle.relabel.specs.Refusals.{IsRefusedFor};

    /// The relabelling of `from` onto `to` with this list of the images of the labels 0, 1, .. of
    /// `from`, or why there is none. The tests are: one image for each edge; labels of `to`; no
    /// edge hit twice; triangles go to triangles.
    pub fn from_list(from: &Tri, to: &Tri, list: &[i32]) -> Result<Relabelling, RelabelError>
        requires same { edge_count from.now ≡ edge_count to.now }
        ensures accepted { IfOk result (λ r. IsRelabelling from.now to.now list.now
            × (r ≡ list.now)) }
        ensures refused { IfErr result (IsRefusedFor from.now to.now list.now) }
        ensures exact { IfErr result (λ _. ¬ IsRelabelling from.now to.now list.now) }
    {
        hit_laws();
        bijection_laws();
        relabelling_laws();
        let edges = from.edges();
        if list.len() != edges as usize {
            return Err(RelabelError::WrongLength(list.len() as u64));
        }
        if let Some(place) = first_outside(list, to.edges()) {
            return Err(RelabelError::NotLabel(place as u64));
        }
        if let Some(edge) = least_hit_twice(list, edges) {
            return Err(RelabelError::NotBijective(u64::from(edge)));
        }
        let relabelling = Relabelling::from_images(list);
        if let Some(triangle) = least_broken(from, to, &relabelling) {
            return Err(RelabelError::BreaksTriangle(u64::from(triangle)));
        }
        Ok(relabelling)
    }

    /// Keeps these images.
    fn from_images(list: &[i32]) -> Relabelling
        requires small { length list.now ≤ EDGES }
        requires bijection { IsBijection list.now }
        ensures { result ≡ list.now }
    {
        let mut images = [Label::new(0); EDGES];
        for place in 0..list.len() {
            images[place] = Label::new(list[place]);
        }
        Relabelling {
            count: list.len() as u32,
            images,
        }
    }

    /// The image of a label of the first triangulation, a label of the second: of `-1 - x` it is
    /// the inverse of that of `x`.
    pub fn image(&self, x: Label) -> Label
        requires { edge_of x < length self.now }
        ensures value { result ≡ image_of self.now x }
        ensures label { edge_of result < length self.now }
    {
        bijection_laws();
        self.images[x.edge() as usize].with_sign_of(x)
    }

    /// The images of the labels 0, 1, .., and zeros after them.
    pub(crate) fn kept_images(&self) -> [Label; EDGES]
        ensures { take (length self.now) result ≡ self.now }
    {
        self.images
    }

    /// How many edges each of the two triangulations has.
    fn edges(&self) -> u32
        ensures count { result ≡ length self.now }
        ensures small { result ≤ EDGES }
        ensures bijection { IsBijection self.now }
    {
        self.count
    }

    /// The relabelling back, from the second triangulation onto the first.
    pub fn inverse(&self) -> Relabelling
        ensures { result ≡ inverse_images self.now }
    {
        bijection_laws();
        Relabelling {
            count: self.count,
            images: inverse_images(&self.images, self.count as usize),
        }
    }

    /// This relabelling and then the next one, from the triangulation that this one ends at.
    pub fn then(&self, next: &Relabelling) -> Relabelling
        requires { length self.now ≡ length next.now }
        ensures { result ≡ map (image_of next.now) self.now }
    {
        let mut images = [0; EDGES];
        let edges = self.edges();
        for edge in 0..edges {
            let image = self.image(Label::new(edge as i32));
            images[edge as usize] = next.image(image).get();
        }
        bijection_laws();
        Relabelling::from_images(&images[..next.edges() as usize])
    }
}

/// The first place whose entry is no label of a triangulation with so many edges.
fn first_outside(list: &[i32], edges: u32) -> Option<usize>
    ensures some { IfSome result (IsFirstOutside edges list.now) }
    ensures none { IfNone result (All (λ x. edge_of x < edges) list.now) }
{
    for place in 0..list.len() {
        if Label::new(list[place]).edge() >= edges {
            return Some(place);
        }
    }
    None
}

/// How many of the labels are of the edge.
fn hits(list: &[i32], edge: u32) -> usize
    ensures { result ≡ hits list.now edge }
{
    list.iter()
        .filter(|x| Label::new(**x).edge() == edge)
        .count()
}

/// The least edge that is hit twice or more by labels of a triangulation with so many edges.
fn least_hit_twice(list: &[i32], edges: u32) -> Option<u32>
    requires { All (λ x. edge_of x < edges) list.now }
    ensures some { IfSome result (IsLeastHitTwice list.now) }
    ensures none { IfNone result (HitsNoneTwice list.now) }
{
    hit_laws();
    for edge in 0..edges {
        if hits(list, edge) > 1 {
            return Some(edge);
        }
    }
    None
}

/// Whether the image of a triangle is a triangle of `to`.
fn is_carried(relabelling: &Relabelling, to: &Tri, triangle: &[Label; 3]) -> bool
    requires sound { IsTriangulation to.now }
    requires as_many { length relabelling.now ≡ edge_count to.now }
    requires sides { All (λ x. edge_of x < length relabelling.now) triangle.now }
    ensures { IsTrue result ↔ IsCarried to.now relabelling.now triangle.now }
{
    triple_laws();
    let x = relabelling.image(triangle[0]);
    let y = relabelling.image(triangle[1]);
    let z = relabelling.image(triangle[2]);
    to.next(x) == y && to.next(y) == z
}

/// The least triangle of `from` whose image is no triangle of `to`.
fn least_broken(from: &Tri, to: &Tri, relabelling: &Relabelling) -> Option<u32>
    requires sound { IsTriangulation to.now }
    requires one_per_edge { length relabelling.now ≡ edge_count from.now }
    requires as_many { length relabelling.now ≡ edge_count to.now }
    ensures some { IfSome result (IsLeastBroken from.now to.now relabelling.now) }
    ensures none { IfNone result (All (IsCarried to.now relabelling.now) from.now) }
{
    for t in 0..from.triangles() {
        if !is_carried(relabelling, to, &from.triple(t)) {
            return Some(t);
        }
    }
    None
}

#[cfg(test)]
mod tests {
    use super::*;
    use std::test::Fail;

    #[test]
    fn turns(rt: HostRuntime) -> Result<(), Fail> {
        let torus = Tri::from_triples(&[[0, 1, 2], [-1, -2, -3]])?;
        let turn = Relabelling::from_list(&torus, &torus, &[1, 2, 0])?;
        assert_eq!(rt; turn.image(Label::new(-1)), Label::new(-2));
        assert_eq!(rt; turn.image(Label::new(2)), Label::new(0));
        assert_eq!(rt; turn.inverse().image(Label::new(-2)), Label::new(-1));
        assert_eq!(rt; turn.then(&turn).image(Label::new(0)), Label::new(2));
        let sphere = Tri::from_triples(&[[0, 1, 2], [-1, -3, -2]])?;
        let turn = Relabelling::from_list(&sphere, &sphere, &[1, 2, 0])?;
        assert_eq!(rt; turn.image(Label::new(-3)), Label::new(-1));
        Ok(())
    }

    #[test]
    fn refusals(rt: HostRuntime) -> Result<(), Fail> {
        let torus = Tri::from_triples(&[[0, 1, 2], [-1, -2, -3]])?;
        assert!(rt;
            matches!(
                Relabelling::from_list(&torus, &torus, &[0, 1]),
                Err(RelabelError::WrongLength(2))
            )
        );
        assert!(rt;
            matches!(
                Relabelling::from_list(&torus, &torus, &[0, 1, 9]),
                Err(RelabelError::NotLabel(2))
            )
        );
        assert!(rt;
            matches!(
                Relabelling::from_list(&torus, &torus, &[0, 1, 1]),
                Err(RelabelError::NotBijective(1))
            )
        );
        assert!(rt;
            matches!(
                Relabelling::from_list(&torus, &torus, &[1, 0, 2]),
                Err(RelabelError::BreaksTriangle(0))
            )
        );
        Ok(())
    }
}
