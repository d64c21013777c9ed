//! The test walks of a triangulation: the loops of its spanning forest, and their products.
ghost use Rattle.std.specs.Prelude.{◌≡◌, ◌<◌, ◌++◌, ◌^◌, pos, length, map, IfOk, OnOk, All};
ghost use Rattle.ideal_tri.specs.Words.{inverse_word, cyclic_reduce};
ghost use Rattle.ideal_tri.specs.Triangulations.{IsLabel, edge_count};
ghost use Rattle.free_groupoid.specs.Walks.{IsClosedOn, walk_of_letters};
ghost use Rattle.free_groupoid.specs.TestWalks.{forest, loop, outer_edges, root_of_edge, edges_at};
ghost use Rattle.free_groupoid.specs.TestWalks.{test_walks};
ghost use Rattle.free_groupoid.specs.InnerLaws.{IsReducedLoop};
ghost use Rattle.free_groupoid.specs.inside.Images.{words_of};

use crate::forest::Forest;
use crate::inner_maps::inner_laws;
use crate::walk::Walk;
use crate::word::cyclic_reduce;
use ideal_tri::{Label, Memory, Tri};
use std::alloc::Global;

/// The closed walks that decide whether a map is inner. Each edge that no tree of the spanning
/// forest crosses has a loop: along the tree to the edge, across it, and along the tree back. The
/// walks are these loops, in the order of the edges, and then the products of each two of one
/// component, ordered by the first and then the second, all reduced as closed walks.
pub fn test_walks(alloc: Global, tri: &Tri) -> Result<Vec<Walk>, Memory>
    ensures value { IfOk result (λ v. v.items ≡ map (walk_of_letters tri.now) (test_walks tri.now)) }
    ensures closed { IfOk result (λ v. All (IsClosedOn tri.now) v.items) }
{
    inner_laws();
    let _ = tri.triangles();
    let trees = Forest::new(alloc, tri)?;
    let mut walks = Vec::new(alloc);
    for letters in test_words(alloc, tri, &trees)? {
        walks.push(walk_of(tri, letters))?;
    }
    Ok(walks)
}

/// The closed walk of these letters, from the triangle of the first.
pub(crate) fn walk_of(tri: &Tri, letters: Vec<Label>) -> Walk
    requires { IsReducedLoop tri.now letters.items }
    ensures value { result ≡ walk_of_letters tri.now letters.items }
    ensures closed { IsClosedOn tri.now result }
{
    Walk {
        start: tri.place(letters[0]).0,
        letters,
    }
}

/// The letters of the test walks.
pub(crate) fn test_words(
    alloc: Global,
    tri: &Tri,
    trees: &Forest,
) -> Result<Vec<Vec<Label>>, Memory>
    requires { trees.now ≡ forest tri.now }
    ensures { IfOk result (λ v. words_of v.items ≡ test_walks tri.now) }
{
    let edges = outer_edges(alloc, tri, trees)?;
    let mut words = Vec::new(alloc);
    for e in &edges {
        let mut word = Vec::new(alloc);
        push_loop(tri, trees, label(tri, *e), &mut word)?;
        cyclic_reduce(&mut word);
        words.push(word)?;
    }
    for k in 0..edges.len() {
        push_products(alloc, tri, trees, edges[k], &edges[k + 1..], &mut words)?;
    }
    Ok(words)
}

/// The edges that no tree crosses, in order.
pub(crate) fn outer_edges(alloc: Global, tri: &Tri, trees: &Forest) -> Result<Vec<u32>, Memory>
    requires { trees.now ≡ forest tri.now }
    ensures value { IfOk result (λ v. v.items ≡ outer_edges tri.now) }
    ensures edges { IfOk result (λ v. All (λ e. e < edge_count tri.now) v.items) }
{
    let mut edges = Vec::new(alloc);
    for e in 0..tri.edges() {
        if !trees.crosses(e) {
            edges.push(e)?;
        }
    }
    Ok(edges)
}

/// Puts the products of the loop of one edge and those of others of its component behind the words.
fn push_products(
    alloc: Global,
    tri: &Tri,
    trees: &Forest,
    i: u32,
    others: &[u32],
    words: &mut Vec<Vec<Label>>,
) -> Result<(), Memory>
    requires trees { trees.now ≡ forest tri.now }
    requires edge { i < edge_count tri.now }
    requires edges { All (λ e. e < edge_count tri.now) others.now }
    ensures { OnOk result (words_of words.new.items ≡ words_of words.old.items
        ++ map (λ j. cyclic_reduce (loop tri.now (pos i) ++ loop tri.now (pos j)))
        (edges_at tri.now (root_of_edge tri.now i) others.now)) }
{
    let root = root_of_edge(tri, trees, i);
    for j in others {
        if root_of_edge(tri, trees, *j) == root {
            let mut word = Vec::new(alloc);
            push_loop(tri, trees, label(tri, i), &mut word)?;
            push_loop(tri, trees, label(tri, *j), &mut word)?;
            cyclic_reduce(&mut word);
            words.push(word)?;
        }
    }
    Ok(())
}

/// The label of an edge that isn't negative.
pub(crate) fn label(tri: &Tri, e: u32) -> Label
    requires { e < edge_count tri.now }
    ensures { result ≡ pos e }
{
    prove!(e < tri.edges());
    Label::new(e as i32)
}

/// The root of the component of an edge.
pub(crate) fn root_of_edge(tri: &Tri, trees: &Forest, e: u32) -> u32
    requires trees { trees.now ≡ forest tri.now }
    requires edge { e < edge_count tri.now }
    ensures { result ≡ root_of_edge tri.now e }
{
    trees.root(tri.place(label(tri, e)).0)
}

/// Puts the loop of a label behind a word: along the tree to the triangle of the label, across, and
/// along the tree back.
pub(crate) fn push_loop(
    tri: &Tri,
    trees: &Forest,
    x: Label,
    word: &mut Vec<Label>,
) -> Result<(), Memory>
    requires trees { trees.now ≡ forest tri.now }
    requires label { IsLabel tri.now x }
    ensures { OnOk result (word.new.items ≡ word.old.items ++ loop tri.now x) }
{
    word.extend_from_slice(trees.walk(tri.place(x).0))?;
    word.push(x)?;
    push_inverse(trees.walk(tri.place(x.inverse()).0), word)
}

/// Puts the way back along a walk behind a word.
pub(crate) fn push_inverse(walk: &[Label], word: &mut Vec<Label>) -> Result<(), Memory>
    ensures { OnOk result (word.new.items ≡ word.old.items ++ inverse_word walk.now) }
{
    let count = walk.len();
    for k in 0..count {
        word.push(walk[count - 1 - k].inverse())?;
    }
    Ok(())
}
