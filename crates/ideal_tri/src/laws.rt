//! What is proved of the definitions that the contracts cite.
//!
//! The functions do nothing: each is called, in a body or by a layer above, where a proof needs
//! what its contract says.
ghost use Rattle.std.specs.Prelude.{ℤ, List};
ghost use Rattle.ideal_tri.specs.Triangulations.{IsTriangulation};
ghost use Rattle.ideal_tri.specs.LabelLaws.{LabelLaws};
ghost use Rattle.ideal_tri.specs.WordLaws.{LetterLaws, WordLaws};
ghost use Rattle.ideal_tri.specs.DrawingLaws.{DrawingLaws, SameCurvesLaws};
ghost use Rattle.ideal_tri.specs.StrandLaws.{StrandLaws};
ghost use Rattle.ideal_tri.specs.CornerLaws.{CornerLaws};
ghost use Rattle.ideal_tri.specs.SurfaceLaws.{SurfaceLaws};
ghost use Rattle.ideal_tri.specs.FlipLaws.{FlipLaws};
ghost use Rattle.ideal_tri.specs.TripleLaws.{TripleLaws};
ghost use Rattle.ideal_tri.specs.VertexLaws.{VertexLaws};
ghost use Rattle.ideal_tri.specs.ComponentLaws.{ComponentLaws};
ghost use Rattle.ideal_tri.specs.HitLaws.{HitLaws};
ghost use Rattle.ideal_tri.specs.BijectionLaws.{BijectionLaws};
ghost use Rattle.ideal_tri.specs.RelabellingLaws.{RelabellingLaws};

/// What is proved of labels: their inverses, their edges, and the test of equality.
pub fn label_laws()
    ensures { LabelLaws }
{}

/// What is proved of words and their inverses, of their reduction, and of closed words.
pub fn word_laws()
    ensures { WordLaws }
{}

/// What is proved of a letter that is read in a word.
pub fn letter_laws()
    ensures { LetterLaws }
{}

/// What is proved of lists of closed words up to order, rotation and direction.
pub fn same_curves_laws()
    ensures { SameCurvesLaws }
{}

/// What is proved of the drawings of a vector: they exist, their words are unique up to order,
/// rotation and direction, and one begins each curve at its least strand, in rising order.
pub fn drawing_laws()
    ensures { (triples : List (List ℤ)) → IsTriangulation triples → DrawingLaws triples }
{}

/// What is proved of the steps of strands: where they lead, and how the curves of a drawing are
/// found strand by strand.
pub fn strand_laws()
    ensures { (triples : List (List ℤ)) → IsTriangulation triples → StrandLaws triples }
{}

/// What is proved of the corners of a vector: it is a multicurve where its sides are sums of counts
/// at corners, it has a curve round a vertex exactly where all corners there have strands, and
/// these curves can be taken off.
pub fn corner_laws()
    ensures { (triples : List (List ℤ)) → IsTriangulation triples → CornerLaws triples }
{}

/// What is proved of triangulations, and of walks on them.
pub fn surface_laws()
    ensures { SurfaceLaws }
{}

/// What is proved of the flip of an edge.
pub fn flip_laws()
    ensures { FlipLaws }
{}

/// What is proved of the triples of a triangulation, read from any of their sides.
pub fn triple_laws()
    ensures { TripleLaws }
{}

/// What is proved of the vertices of a triangulation: how they are numbered, and that there are no
/// more than on spheres.
pub fn vertex_laws()
    ensures { VertexLaws }
{}

/// What is proved of the components of a triangulation: how they are numbered, and that none is a
/// single triangle.
pub fn component_laws()
    ensures { ComponentLaws }
{}

/// What is proved of how often the labels of a list hit an edge.
pub fn hit_laws()
    ensures { HitLaws }
{}

/// What is proved of the images of labels and of words, of bijections of labels, and of their
/// inverse images.
pub fn bijection_laws()
    ensures { BijectionLaws }
{}

/// What is proved of relabellings: they go with the sides and the triangles, their inverses and
/// compositions are relabellings, and they carry the curves that draw a vector to curves that the
/// moved vector counts.
pub fn relabelling_laws()
    ensures { RelabellingLaws }
{}
