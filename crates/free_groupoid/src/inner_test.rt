//! The test whether a map is inner.
ghost use Rattle.std.specs.Prelude.{◌≡◌, ◌<◌, ◌↔◌, length, IsTrue, IfOk, All};
ghost use Rattle.free_groupoid.specs.GroupoidMaps.{substitution};
ghost use Rattle.ideal_tri.specs.Words.{IsReduced};
ghost use Rattle.free_groupoid.specs.Inner.{IsKept};
ghost use Rattle.free_groupoid.specs.InnerAnswers.{IsSelfMap, IsInnerAnswer};
ghost use Rattle.free_groupoid.specs.inside.Images.{IsBelow};

use crate::forest::Forest;
use crate::inner_maps::inner_laws;
use crate::inner_paths::inner_paths;
use crate::map::Map;
use crate::test_list::{test_words, walk_of};
use crate::walk::Walk;
use crate::word::{cyclic_reduce, is_rotation};
use ideal_tri::{Label, Memory, Tri, label_laws, surface_laws, word_laws};
use std::alloc::Global;

/// Whether a map is inner.
#[derive(Drop)]
pub enum InnerAnswer {
    /// The map is inner.
    Yes {
        /// The reduced walks by which it is, one from each triangle to its image, in the order of
        /// the triangles: across an edge and on along the walk from the triangle there is, reduced,
        /// the same as along the walk from the triangle here and on along the image of the edge.
        paths: Vec<Walk>,
    },
    /// The map isn't inner.
    No {
        /// The first of the test walks whose image, reduced as a closed walk, isn't the walk begun
        /// at one of its places.
        walk: Walk,
    },
}

/// Whether a map of a triangulation to itself is inner, so that the mapping class it stands for is
/// trivial (Farb and Margalit, chapter 8).
pub fn inner(alloc: Global, tri: &Tri, f: &Map) -> Result<InnerAnswer, Memory>
    requires { IsSelfMap tri.now f.now }
    ensures { IfOk result (IsInnerAnswer tri.now f.now) }
{
    label_laws();
    word_laws();
    surface_laws();
    inner_laws();
    let _ = tri.triangles();
    let trees = Forest::new(alloc, tri)?;
    for word in test_words(alloc, tri, &trees)? {
        if !is_kept(alloc, f, &word)? {
            return Ok(InnerAnswer::No {
                walk: walk_of(tri, word),
            });
        }
    }
    Ok(InnerAnswer::Yes {
        paths: inner_paths(alloc, tri, &trees, f)?,
    })
}

/// Whether the image of a closed walk, reduced as a closed walk, is the walk begun at one of its
/// places.
fn is_kept(alloc: Global, f: &Map, word: &[Label]) -> Result<bool, Memory>
    requires below { IsBelow (length f.now.images) word.now }
    requires reduced { All IsReduced f.now.images }
    ensures { IfOk result (λ b. IsTrue b ↔ IsKept (substitution f.now.images) word.now) }
{
    word_laws();
    let mut image = f.substituted(alloc, word)?;
    cyclic_reduce(&mut image);
    Ok(is_rotation(&image, word))
}
