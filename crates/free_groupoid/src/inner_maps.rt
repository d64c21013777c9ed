//! What is proved of spanning forests, of inner maps and of related maps. The functions do nothing:
//! a body that calls one knows its laws from there on.
ghost use Rattle.std.specs.Prelude.{ℤ, List};
ghost use Rattle.ideal_tri.specs.Triangulations.{IsTriangulation};
ghost use Rattle.free_groupoid.specs.ForestLaws.{ForestLaws};
ghost use Rattle.free_groupoid.specs.InnerLaws.{InnerLaws, InnerMapLaws};
ghost use Rattle.free_groupoid.specs.PeriodicLaws.{PeriodicLaws, FoundLaws};
ghost use Rattle.free_groupoid.specs.RelatedLaws.{RelatedLaws, RelationLaws};

use crate::laws::groupoid_laws;
use ideal_tri::{component_laws, label_laws, surface_laws, word_laws};
use tri_atlas::{atlas_laws, map_laws};

/// What is proved of the spanning forest of a triangulation.
pub fn forest_laws()
    ensures { (triples : List (List ℤ)) → IsTriangulation triples → ForestLaws triples }
{
    label_laws();
    word_laws();
    surface_laws();
    component_laws();
    map_laws();
}

/// What is proved of inner maps: that finitely many closed walks decide whether a map is inner, and
/// how inner maps compose.
pub fn inner_laws()
    ensures test { InnerLaws }
    ensures maps { InnerMapLaws }
{
    label_laws();
    word_laws();
    surface_laws();
    map_laws();
    forest_laws();
}

/// What is proved of related maps: that the same closed walks decide whether two maps are related,
/// and how maps stay related.
pub fn related_laws()
    ensures test { RelatedLaws }
    ensures relations { RelationLaws }
{
    label_laws();
    word_laws();
    surface_laws();
    map_laws();
    forest_laws();
}

/// What is proved of inner powers, and of what the calls find of the map of a path.
pub fn periodic_laws()
    ensures powers { PeriodicLaws }
    ensures found { FoundLaws }
{
    label_laws();
    word_laws();
    surface_laws();
    map_laws();
    atlas_laws();
    groupoid_laws();
    inner_laws();
}
