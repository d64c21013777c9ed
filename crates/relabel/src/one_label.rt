//! The relabelling that takes one label to a given one.
ghost use Rattle.std.specs.Prelude.{◌≡◌, ◌<◌, ◌≤◌, ◌↔◌, length, slice_set, IsTrue, IfSome, IfNone};
ghost use Rattle.std.specs.Prelude.{true};
ghost use Rattle.ideal_tri.specs.Labels.{edge_of, with_sign_of};
ghost use Rattle.ideal_tri.specs.Triangulations.{edge_count, IsLabel, IsTriangulation, IsConnected};
ghost use Rattle.ideal_tri.specs.Relabellings.{image_of};
ghost use Rattle.relabel.specs.Relabellings.{IsTheOne, NoneTakes};
ghost use Rattle.relabel.specs.inside.Forced.{IsOpen, IsClosed, IsForcedList};

use crate::relabelling::Relabelling;
use ideal_tri::{EDGES, Label, Tri, bijection_laws, label_laws, relabelling_laws, surface_laws};

impl Relabelling {
    /// The one relabelling of `from` onto `to` that takes the label `x` to `y`, or `None` where
    /// there is none. Both triangulations are connected, so that the image of one label settles all
    /// others.
    pub fn from_one(from: &Tri, to: &Tri, x: Label, y: Label) -> Option<Relabelling>
        requires connected { IsConnected from.now × IsConnected to.now }
        requires same { edge_count from.now ≡ edge_count to.now }
        requires label { IsLabel from.now x }
        requires image { IsLabel to.now y }
        ensures some { IfSome result (IsTheOne from.now to.now x y) }
        ensures none { IfNone result (NoneTakes from.now to.now x y) }
    {
        let edges = to.edges() as usize;
        let images = forced_images(from, to, x, y);
        Relabelling::from_list(from, to, &images[..edges]).ok()
    }
}

/// The images that each relabelling has which takes `x` to `y`, if there is one.
fn forced_images(from: &Tri, to: &Tri, x: Label, y: Label) -> [i32; EDGES]
    requires connected { IsConnected from.now }
    requires sound { IsTriangulation to.now }
    requires label { IsLabel from.now x }
    requires image { IsLabel to.now y }
    ensures room { length result ≡ EDGES }
    ensures takes { image_of result x ≡ y }
    ensures forced { IsForcedList from.now to.now x y result }
{
    label_laws();
    bijection_laws();
    relabelling_laws();
    surface_laws();
    let mut images = [0; EDGES];
    let mut known = [false; EDGES];
    let edges = from.edges();
    learn(&mut images, &mut known, x, y);
    while let Some(side) = first_open(from, edges, &known) {
        let image = image_in(&images, side);
        learn(&mut images, &mut known, from.next(side), to.next(image));
    }
    images
}

/// Writes down that `x` goes to `y`.
fn learn(images: &mut [i32; EDGES], known: &mut [bool; EDGES], x: Label, y: Label)
    requires edge { edge_of x < EDGES }
    requires images_room { length images.old ≡ EDGES }
    requires known_room { length known.old ≡ EDGES }
    ensures images { images.new ≡ slice_set images.old (edge_of x) (with_sign_of x y) }
    ensures known { known.new ≡ slice_set known.old (edge_of x) true }
{
    let edge = x.edge() as usize;
    images[edge] = y.with_sign_of(x).get();
    known[edge] = true;
}

/// The image of a label.
fn image_in(images: &[i32; EDGES], x: Label) -> Label
    requires edge { edge_of x < EDGES }
    requires room { length images.now ≡ EDGES }
    ensures { result ≡ image_of images.now x }
{
    let image = Label::new(images[x.edge() as usize]);
    if x.get() < 0 { image.inverse() } else { image }
}

/// Whether the image of a label is known, while that of the label after it isn't.
fn is_open(from: &Tri, known: &[bool; EDGES], x: Label) -> bool
    requires few { edge_count from.now ≤ EDGES }
    requires sound { IsTriangulation from.now }
    requires label { IsLabel from.now x }
    requires room { length known.now ≡ EDGES }
    ensures { IsTrue result ↔ IsOpen from.now known.now x }
{
    let after = from.next(x);
    known[x.edge() as usize] && !known[after.edge() as usize]
}

/// A label whose image is known, while that of the label after it isn't.
fn first_open(from: &Tri, edges: u32, known: &[bool; EDGES]) -> Option<Label>
    requires sound { IsTriangulation from.now }
    requires edges { edges ≡ edge_count from.now }
    requires few { edges ≤ EDGES }
    requires room { length known.now ≡ EDGES }
    ensures label { IfSome result (IsLabel from.now) }
    ensures open { IfSome result (IsOpen from.now known.now) }
    ensures none { IfNone result (IsClosed from.now known.now) }
{
    for edge in 0..edges {
        let x = Label::new(edge as i32);
        if is_open(from, known, x) {
            return Some(x);
        }
        if is_open(from, known, x.inverse()) {
            return Some(x.inverse());
        }
    }
    None
}

#[cfg(test)]
mod tests {
    use super::*;
    use std::test::Fail;

    #[test]
    fn torus_and_sphere(rt: HostRuntime) -> Result<(), Fail> {
        let torus = Tri::from_triples(&[[0, 1, 2], [-1, -2, -3]])?;
        let sphere = Tri::from_triples(&[[0, 1, 2], [-1, -3, -2]])?;
        let zero = Label::new(0);
        let turn = Relabelling::from_one(&torus, &torus, zero, Label::new(-2));
        assert_eq!(rt; turn.map(|r| r.image(Label::new(1))), Some(Label::new(-3)));
        assert!(rt; Relabelling::from_one(&torus, &sphere, zero, zero).is_none());
        Ok(())
    }

    // A turn of the torus; and none where ~0 would go to two labels, since 0 and ~0 lie in one
    // triangle.
    #[test]
    fn from_zero_to_one(rt: HostRuntime) -> Result<(), Fail> {
        let torus = Tri::from_triples(&[[0, 1, 2], [-1, -2, -3]])?;
        let folded = Tri::from_triples(&[[0, -1, 1], [-2, 2, -3]])?;
        let zero = Label::new(0);
        let one = Label::new(1);
        let two = Label::new(2);
        let turn = Relabelling::from_one(&torus, &torus, zero, one).expect(&rt, "a turn");
        assert_eq!(rt; turn.image(zero), one);
        assert_eq!(rt; turn.image(one), two);
        assert_eq!(rt; turn.image(two), zero);
        assert!(rt; Relabelling::from_one(&folded, &folded, zero, one).is_none());
        Ok(())
    }
}
