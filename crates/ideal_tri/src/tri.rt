//! Triangulations.
ghost use Rattle.std.specs.Prelude.{◌≡◌, ◌≢◌, ◌<◌, ◌≤◌, ◌-◌, ◌/◌, ◌+◌, ◌*◌, ◌++◌, [], ◌∷◌, ◌↔◌};
ghost use Rattle.std.specs.Prelude.{length, slice_get, Some, IfOk, IfErr, IfSome, IfNone, IsTrue};
ghost use Rattle.std.specs.Prelude.{All};
ghost use Rattle.ideal_tri.specs.Labels.{inverse, edge_of};
ghost use Rattle.ideal_tri.specs.Triangulations.{labels_of, edge_count, triangle_of, side_of, next};
ghost use Rattle.ideal_tri.specs.Triangulations.{IsLabel, IsTriangulation, IsConnected};
ghost use Rattle.ideal_tri.specs.Refusals.{IsOfGoodSize, IsFirstOutside, IsFirstRepeated};
ghost use Rattle.ideal_tri.specs.Refusals.{IsRefusedGluing, IsRefusedFor};
ghost use Rattle.ideal_tri.specs.inside.Places.{key_of, with_places, spare_triples, IsGlued};
ghost use Rattle.ideal_tri.specs.Flips.{IsFlippable, flipped};

use crate::component::first_unreached;
use crate::label::Label;
use std::marker::Model;

/// The most edges of a triangulation.
pub const EDGES: usize = 48;

/// The most triangles of a triangulation: two for each three edges.
pub(crate) const TRIANGLES: usize = 2 * EDGES / 3;

/// How many labels the most edges have: two for each.
pub(crate) const LABELS: usize = 2 * EDGES;

/// The entry of a label that stands nowhere.
const NOWHERE: u8 = 255;

/// An ideal triangulation of a punctured surface (after Bell's flipper): at most 32 triangles and
/// 48 edges, in one component or several, in fixed memory. Triangles are numbered from 0; the sides
/// of each are numbered 0, 1 and 2, anticlockwise, and carry the labels by which they are glued:
/// side `x` to side `-1 - x`. The triples of labels are kept in the order and the rotation in which
/// they came.
#[derive(Clone, Copy, Debug, PartialEq, Eq)]
pub struct Tri {
    // the number of triangles
    count: u32,
    // the labels round each triangle; zeros after the last
    sides: [[Label; 3]; TRIANGLES],
    // at `x + EDGES`, where `x` stands: three times its triangle's number, plus its side's
    place: [u8; LABELS],
}

/// Why triples are no triangulation. The tests are made in this order, each over all triples before
/// the next.
#[derive(Clone, Copy, Debug, PartialEq, Eq)]
pub enum TriError {
    /// There is no triple.
    NoTriangle,
    /// There are more than `EDGES` edges; their number, three for each two triangles, rounded down.
    TooManyEdges(u64),
    /// The first label read that is none of `-n` to `n - 1`, with `n` edges.
    LabelRange(i32),
    /// The first label read a second time.
    LabelTwice(i32),
    /// The least triangle that can't be reached from triangle 0. Only `from_triples` gives it.
    Disconnected(u64),
}

impl Model for Tri {
    ghost use Rattle.std.specs.Prelude.{ℤ, List, ◌++◌, ◌-◌, length, take};
    ghost use Rattle.std.proofs.Common.{sym};
    ghost use Rattle.ideal_tri.specs.Triangulations.{labels_of};
    ghost use Rattle.ideal_tri.specs.inside.Places.{IsLaidOut, spare_triples, places_of};
    ghost use Rattle.ideal_tri.specs.inside.LaidOut.{count_again, sides_again};
    ghost use Rattle.ideal_tri.specs.declared.tri.TheConstants.{TRIANGLES};

    ghost Value = { List (List ℤ) };

    ghost view = { λ a. take a.count a.sides };

    ghost invariant = { λ a. IsLaidOut a.count a.sides a.place };

    ghost inverse = { λ ts. record {
      count = length ts;
      sides = ts ++ spare_triples (TRIANGLES - length ts);
      place = places_of (labels_of ts);
    } };

    ghost inverse_ok = { λ a h i. record {
      count = count_again a.count a.sides a.place h i;
      sides = sides_again a.count a.sides a.place h i;
      place = sym h.glued.placed.table i;
    } };
}

impl Tri {
    /// The triangulation of these triples of labels, each anticlockwise round its triangle, up to
    /// rotation. With `n` edges, three for each two triangles, the labels are those from `-n` to
    /// `n - 1`, each once. Connection is tested last, so that all but `Disconnected` are the
    /// refusals of `from_components`.
    pub fn from_triples(triples: &[[i32; 3]]) -> Result<Tri, TriError>
        ensures accepted { IfOk result (λ t. IsTriangulation triples.now × (t ≡ triples.now)) }
        ensures connected { IfOk result IsConnected }
        ensures size { IfOk result (λ _. IsOfGoodSize triples.now) }
        ensures refused { IfErr result (IsRefusedFor triples.now) }
        ensures exact { IfErr result (λ _. ¬ (IsOfGoodSize triples.now
            × IsTriangulation triples.now × IsConnected triples.now)) }
    {
        let tri = Tri::from_components(triples)?;
        match first_unreached(&tri) {
            None => Ok(tri),
            Some(t) => Err(TriError::Disconnected(u64::from(t))),
        }
    }

    /// The triangulation of these triples, as `from_triples` takes them, where it may have several
    /// components. The refusal is never `Disconnected`.
    pub fn from_components(triples: &[[i32; 3]]) -> Result<Tri, TriError>
        ensures accepted { IfOk result (λ t. IsTriangulation triples.now × (t ≡ triples.now)) }
        ensures size { IfOk result (λ _. IsOfGoodSize triples.now) }
        ensures refused { IfErr result (IsRefusedGluing triples.now) }
        ensures exact { IfErr result (λ _. ¬ (IsOfGoodSize triples.now
            × IsTriangulation triples.now)) }
    {
        if triples.is_empty() {
            return Err(TriError::NoTriangle);
        }
        let edges = edge_count(triples);
        if edges > EDGES as u64 {
            return Err(TriError::TooManyEdges(edges));
        }
        if let Some(x) = first_outside(triples) {
            return Err(TriError::LabelRange(x));
        }
        let place = match place_labels(triples) {
            Ok(place) => place,
            Err(x) => return Err(TriError::LabelTwice(x)),
        };
        Ok(Tri {
            count: triples.len() as u32,
            sides: copy_sides(triples),
            place,
        })
    }

    /// How many edges there are: three for each two triangles, at most `EDGES`.
    pub fn edges(&self) -> u32
        ensures count { result ≡ edge_count self.now }
        ensures size { IsOfGoodSize self.now }
        ensures sound { IsTriangulation self.now }
    {
        3 * self.count / 2
    }

    /// How many triangles there are: an even number, from 2 to 32.
    pub fn triangles(&self) -> u32
        ensures count { result ≡ length self.now }
        ensures size { IsOfGoodSize self.now }
        ensures sound { IsTriangulation self.now }
    {
        self.count
    }

    /// The labels round triangle `t`, anticlockwise.
    pub fn triple(&self, t: u32) -> [Label; 3]
        requires { t < length self.now }
        ensures triple { slice_get self.now t ≡ Some result }
        ensures labels { All (IsLabel self.now) result }
    {
        self.sides[t as usize]
    }

    /// Where a label stands: the number of its triangle, and of its side there, from 0 to 2.
    pub fn place(&self, x: Label) -> (u32, u32)
        requires { IsLabel self.now x }
        ensures triangle { result.0 ≡ triangle_of self.now x }
        ensures side { result.1 ≡ side_of self.now x }
        ensures within { (result.0 < length self.now) × (result.1 < 3) }
    {
        let place = &self.place;
        let k = u32::from(place[key(x)]);
        (k / 3, k % 3)
    }

    /// The label after `x`, anticlockwise, in its triangle.
    pub fn next(&self, x: Label) -> Label
        requires { IsLabel self.now x }
        ensures next { result ≡ next self.now x }
        ensures label { IsLabel self.now result }
    {
        let (triangle, side) = self.place(x);
        self.sides[triangle as usize][(side as usize + 1) % 3]
    }

    /// Whether the edge of `x` has two triangles at it, so that it can be flipped. An edge within
    /// one triangle is folded.
    pub fn flippable(&self, x: Label) -> bool
        requires { IsLabel self.now x }
        ensures { IsTrue result ↔ IsFlippable self.now x }
    {
        self.place(x).0 != self.place(x.inverse()).0
    }

    /// The triangulation after the flip of the edge of `e`: where `~e` is the other direction of
    /// `e`, the triangles `(e, a, b)` and `(~e, c, d)` become `(e, d, a)` and `(~e, b, c)`, in this
    /// rotation. They keep their numbers, and the new edge has the number of the old one. But for
    /// one copy the work is the same for every triangulation.
    pub fn flipped(&self, e: Label) -> Tri
        requires label { IsLabel self.now e }
        requires flippable { IsFlippable self.now e }
        ensures { result ≡ flipped self.now e }
    {
        let back = e.inverse();
        let (a, c) = (self.next(e), self.next(back));
        let (b, d) = (self.next(a), self.next(c));
        let (first, second) = (self.place(e).0, self.place(back).0);
        let mut sides = self.sides;
        sides[first as usize] = [e, d, a];
        sides[second as usize] = [back, b, c];
        let mut place = self.place;
        write_places(&mut place, first, e, d, a);
        write_places(&mut place, second, back, b, c);
        Tri {
            count: self.count,
            sides,
            place,
        }
    }
}

/// Three edges for each two triangles, rounded down.
fn edge_count(triples: &[[i32; 3]]) -> u64
    ensures { result ≡ edge_count triples.now }
{
    3 * triples.len() as u64 / 2
}

/// The first label read that is out of range.
fn first_outside(triples: &[[i32; 3]]) -> Option<i32>
    ensures some { IfSome result (IsFirstOutside triples.now) }
    ensures none { IfNone result (All (IsLabel triples.now) (labels_of triples.now)) }
{
    let edges = edge_count(triples);
    for x in triples.as_flattened() {
        if u64::from(Label::new(*x).edge()) >= edges {
            return Some(*x);
        }
    }
    None
}

/// Where the place of a label is kept.
fn key(x: Label) -> usize
    requires { edge_of x < EDGES }
    ensures key { result ≡ key_of x }
    ensures room { result < LABELS }
{
    (x.get() + EDGES as i32) as usize
}

/// Where each label stands among all that are read, or the first label that is read a second time.
fn place_labels(triples: &[[i32; 3]]) -> Result<[u8; LABELS], i32>
    requires size { IsOfGoodSize triples.now }
    requires in_range { All (IsLabel triples.now) (labels_of triples.now) }
    ensures placed { IfOk result (λ place. IsGlued triples.now place) }
    ensures repeated { IfErr result (IsFirstRepeated triples.now) }
{
    let labels = triples.as_flattened();
    let mut place = [NOWHERE; LABELS];
    for k in 0..labels.len() {
        let at = key(Label::new(labels[k]));
        if place[at] != NOWHERE {
            return Err(labels[k]);
        }
        place[at] = k as u8;
    }
    Ok(place)
}

/// Writes down where the sides of a triangle stand.
fn write_places(place: &mut [u8; LABELS], triangle: u32, x: Label, y: Label, z: Label)
    requires triangle { triangle < TRIANGLES }
    requires labels { (edge_of x < EDGES) × (edge_of y < EDGES) × (edge_of z < EDGES) }
    ensures { place.new ≡ with_places place.old (3 * triangle) (x ∷ y ∷ z ∷ []) }
{
    let at = (3 * triangle) as u8;
    place[key(x)] = at;
    place[key(y)] = at + 1;
    place[key(z)] = at + 2;
}

/// The triples as labels, and zeros after them.
fn copy_sides(triples: &[[i32; 3]]) -> [[Label; 3]; TRIANGLES]
    requires { length triples.now ≤ TRIANGLES }
    ensures { result ≡ triples.now ++ spare_triples (TRIANGLES - length triples.now) }
{
    let mut sides = [[Label::new(0); 3]; TRIANGLES];
    for t in 0..triples.len() {
        let [a, b, c] = triples[t];
        sides[t] = [Label::new(a), Label::new(b), Label::new(c)];
    }
    sides
}

#[cfg(test)]
mod tests {
    use super::*;
    use std::test::Fail;

    #[test]
    fn once_punctured_torus(rt: HostRuntime) -> Result<(), Fail> {
        let torus = Tri::from_triples(&[[0, 1, 2], [-1, -2, -3]])?;
        assert_eq!(rt; torus.edges(), 3);
        assert_eq!(rt; torus.triangles(), 2);
        let last = Label::new(-3);
        assert_eq!(rt; torus.triple(1), [Label::new(-1), Label::new(-2), last]);
        assert_eq!(rt; torus.place(last), (1, 2));
        assert_eq!(rt; torus.next(Label::new(2)), Label::new(0));
        assert!(rt; torus.flippable(last));
        Ok(())
    }

    #[test]
    fn flips(rt: HostRuntime) -> Result<(), Fail> {
        let torus = Tri::from_triples(&[[0, 1, 2], [-1, -2, -3]])?;
        assert_eq!(rt;
            torus.flipped(Label::new(0)),
            Tri::from_triples(&[[0, -3, 1], [-1, 2, -2]])?
        );
        assert_eq!(rt;
            torus.flipped(Label::new(-1)),
            Tri::from_triples(&[[0, -3, 1], [-1, 2, -2]])?
        );
        let sphere = Tri::from_triples(&[[0, -1, 1], [-2, 2, -3]])?;
        assert!(rt; !sphere.flippable(Label::new(0)));
        assert_eq!(rt;
            sphere.flipped(Label::new(1)),
            Tri::from_triples(&[[1, -3, 0], [-2, -1, 2]])?
        );
        Ok(())
    }

    #[test]
    fn refusals(rt: HostRuntime) {
        assert!(rt; matches!(Tri::from_triples(&[]), Err(TriError::NoTriangle)));
        assert!(rt;
            matches!(
                Tri::from_triples(&[[0, 1, 2]; 33]),
                Err(TriError::TooManyEdges(49))
            )
        );
        assert!(rt;
            matches!(
                Tri::from_triples(&[[0, 1, 2]]),
                Err(TriError::LabelRange(1))
            )
        );
        assert!(rt;
            matches!(
                Tri::from_triples(&[[0, 1, 2], [-1, -2, -4]]),
                Err(TriError::LabelRange(-4))
            )
        );
        assert!(rt;
            matches!(
                Tri::from_triples(&[[0, 1, 2], [-1, 1, -3]]),
                Err(TriError::LabelTwice(1))
            )
        );
        assert!(rt;
            matches!(
                Tri::from_triples(&[[0, 1, 2], [-1, -2, -3], [3, 4, 5], [-4, -5, -6]]),
                Err(TriError::Disconnected(2))
            )
        );
    }
}
