//! The walks by which a map is inner, computed from the images of two loops of each component.
ghost use Rattle.std.specs.Prelude.{◌≡◌, ◌<◌, length, map, nat_eq, IfOk, All};
ghost use Rattle.std.specs.List.{flat_map, range_with_len, take_while};
ghost use Rattle.ideal_tri.specs.Labels.{edge_of};
ghost use Rattle.ideal_tri.specs.Triangulations.{IsLabel, edge_count};
ghost use Rattle.free_groupoid.specs.Walks.{DualWalk};
ghost use Rattle.free_groupoid.specs.GroupoidMaps.{substitution, vertex_image};
ghost use Rattle.free_groupoid.specs.TestWalks.{forest, outer_edges, edges_at};
ghost use Rattle.free_groupoid.specs.InnerAnswers.{IsSelfMap};
ghost use Rattle.free_groupoid.specs.inside.InnerPaths.{is_outer_at, collapse, collapsed_image};
ghost use Rattle.free_groupoid.specs.inside.InnerPaths.{shared, second_half, conjugator, root_path};
ghost use Rattle.free_groupoid.specs.inside.ComputedWalks.{root_word, path_from};
ghost use Rattle.free_groupoid.specs.inside.Images.{words_of};

use crate::forest::Forest;
use crate::inner_maps::forest_laws;
use crate::map::Map;
use crate::test_list::{label, outer_edges, push_inverse, push_loop, root_of_edge};
use crate::walk::Walk;
use crate::word::reduce;
use ideal_tri::{Label, Memory, Tri, label_laws, surface_laws, word_laws};
use std::alloc::Global;
use tri_atlas::map_laws;

/// For each triangle in order: back along the tree, along the walk of the root, and along the image
/// of the way there, reduced.
pub(crate) fn inner_paths(
    alloc: Global,
    tri: &Tri,
    trees: &Forest,
    f: &Map,
) -> Result<Vec<Walk>, Memory>
    requires trees { trees.now ≡ forest tri.now }
    requires map { IsSelfMap tri.now f.now }
    ensures { IfOk result (λ v. v.items ≡ map (path_from tri.now f.now) (range_with_len 0 (length
        tri.now))) }
{
    label_laws();
    word_laws();
    map_laws();
    surface_laws();
    forest_laws();
    let _ = tri.triangles();
    let roots = root_walks(alloc, tri, trees, f)?;
    let mut paths = Vec::new(alloc);
    for t in 0..tri.triangles() {
        let root = &roots[trees.root(t) as usize];
        let walk = trees.walk(t);
        let mut letters = Vec::new(alloc);
        push_inverse(walk, &mut letters)?;
        letters.extend_from_slice(root)?;
        letters.extend_from_slice(&f.substituted(alloc, walk)?)?;
        reduce(&mut letters);
        paths.push(Walk { start: t, letters })?;
    }
    Ok(paths)
}

/// For each triangle that is the root of a tree the walk to its image that conjugates the loops of
/// the tree to their images, and for the others no letters.
fn root_walks(alloc: Global, tri: &Tri, trees: &Forest, f: &Map) -> Result<Vec<Vec<Label>>, Memory>
    requires trees { trees.now ≡ forest tri.now }
    requires map { IsSelfMap tri.now f.now }
    ensures { IfOk result (λ v. words_of v.items
        ≡ map (root_word tri.now f.now) (range_with_len 0 (length tri.now))) }
{
    let mut walks = Vec::new(alloc);
    for t in 0..tri.triangles() {
        let walk = if trees.root(t) == t {
            root_walk(alloc, tri, trees, f, t)?
        } else {
            Vec::new(alloc)
        };
        walks.push(walk)?;
    }
    Ok(walks)
}

/// The loops of a word that conjugates each edge of the component to its collapsed image, and on
/// along the tree.
fn root_walk(
    alloc: Global,
    tri: &Tri,
    trees: &Forest,
    f: &Map,
    r: u32,
) -> Result<Vec<Label>, Memory>
    requires trees { trees.now ≡ forest tri.now }
    requires map { IsSelfMap tri.now f.now }
    requires root { r < length tri.now }
    ensures { IfOk result (λ v. v.items ≡ root_path tri.now (substitution f.now.images)
        (vertex_image f.now) r) }
{
    let mut walk = Vec::new(alloc);
    for x in &conjugator(alloc, tri, trees, f, r)? {
        push_loop(tri, trees, *x, &mut walk)?;
    }
    walk.extend_from_slice(trees.walk(f.vertex(r)))?;
    Ok(walk)
}

/// A word that conjugates each edge outside the tree of this root to its collapsed image, where one
/// does.
fn conjugator(
    alloc: Global,
    tri: &Tri,
    trees: &Forest,
    f: &Map,
    r: u32,
) -> Result<Vec<Label>, Memory>
    requires trees { trees.now ≡ forest tri.now }
    requires map { IsSelfMap tri.now f.now }
    ensures value { IfOk result (λ v. v.items
        ≡ conjugator tri.now (substitution f.now.images) r (edges_at tri.now r (outer_edges
        tri.now))) }
    ensures labels { IfOk result (λ v. All (IsLabel tri.now) v.items) }
{
    let edges = edges_at(alloc, tri, trees, r)?;
    if edges.len() < 2 {
        return Ok(Vec::new(alloc));
    }
    let first = collapsed_image(alloc, tri, trees, f, r, edges[0])?;
    let second = collapsed_image(alloc, tri, trees, f, r, edges[1])?;
    shared(
        alloc,
        tri,
        label(tri, edges[0]),
        second_half(&first),
        second_half(&second),
    )
}

/// The edges outside the tree of this root, in order.
fn edges_at(alloc: Global, tri: &Tri, trees: &Forest, r: u32) -> Result<Vec<u32>, Memory>
    requires { trees.now ≡ forest tri.now }
    ensures value { IfOk result (λ v. v.items ≡ edges_at tri.now r (outer_edges tri.now)) }
    ensures edges { IfOk result (λ v. All (λ e. e < edge_count tri.now) v.items) }
{
    let mut edges = Vec::new(alloc);
    for e in &outer_edges(alloc, tri, trees)? {
        if root_of_edge(tri, trees, *e) == r {
            edges.push(*e)?;
        }
    }
    Ok(edges)
}

/// The image of the loop of an edge, with the letters of the trees and of other components left
/// out.
fn collapsed_image(
    alloc: Global,
    tri: &Tri,
    trees: &Forest,
    f: &Map,
    r: u32,
    e: u32,
) -> Result<Vec<Label>, Memory>
    requires trees { trees.now ≡ forest tri.now }
    requires map { IsSelfMap tri.now f.now }
    requires edge { e < edge_count tri.now }
    ensures value { IfOk result (λ v. v.items ≡ collapsed_image tri.now (substitution f.now.images)
        r e) }
    ensures labels { IfOk result (λ v. All (IsLabel tri.now) v.items) }
{
    label_laws();
    word_laws();
    map_laws();
    surface_laws();
    forest_laws();
    let _ = tri.triangles();
    let mut word = Vec::new(alloc);
    push_loop(tri, trees, label(tri, e), &mut word)?;
    let mut image = collapsed(alloc, tri, trees, r, &f.substituted(alloc, &word)?)?;
    reduce(&mut image);
    Ok(image)
}

/// The letters of a word that lie outside the trees, in the component of this root.
fn collapsed(
    alloc: Global,
    tri: &Tri,
    trees: &Forest,
    r: u32,
    word: &[Label],
) -> Result<Vec<Label>, Memory>
    requires { trees.now ≡ forest tri.now }
    ensures value { IfOk result (λ v. v.items ≡ flat_map (collapse tri.now r) word.now) }
    ensures labels { IfOk result (λ v. All (IsLabel tri.now) v.items) }
{
    let mut kept = Vec::new(alloc);
    for x in word {
        if is_outer_at(tri, trees, r, x.edge()) {
            kept.push(*x)?;
        }
    }
    Ok(kept)
}

/// Whether an edge lies outside the trees, in the component of this root.
fn is_outer_at(tri: &Tri, trees: &Forest, r: u32, e: u32) -> bool
    requires { trees.now ≡ forest tri.now }
    ensures { result ≡ is_outer_at tri.now r e }
{
    e < tri.edges() && !trees.crosses(e) && root_of_edge(tri, trees, e) == r
}

/// Where `a` conjugates `x` and `b` another letter, and one word both to the same, that word: it is
/// `a` behind letters of the edge of `x` alone.
fn shared(
    alloc: Global,
    tri: &Tri,
    x: Label,
    a: &[Label],
    b: &[Label],
) -> Result<Vec<Label>, Memory>
    requires { All (IsLabel tri.now) a.now × All (IsLabel tri.now) b.now }
    ensures value { IfOk result (λ v. v.items ≡ shared x a.now b.now) }
    ensures labels { IfOk result (λ v. All (IsLabel tri.now) v.items) }
{
    label_laws();
    word_laws();
    map_laws();
    let mut word = Vec::from_slice(alloc, a)?;
    push_inverse(b, &mut word)?;
    reduce(&mut word);
    let front = front_of(&word, x.edge());
    let mut conjugator = Vec::new(alloc);
    push_inverse(front, &mut conjugator)?;
    conjugator.extend_from_slice(a)?;
    reduce(&mut conjugator);
    Ok(conjugator)
}

/// The letters at the start of a word that are of one edge.
fn front_of(word: &[Label], e: u32) -> &[Label]
    ensures { result.now ≡ take_while (λ y. nat_eq (edge_of y) e) word.now }
{
    let mut count = 0;
    while count < word.len() && word[count].edge() == e {
        count += 1;
    }
    &word[..count]
}

/// The letters after the middle one.
fn second_half(word: &[Label]) -> &[Label]
    ensures { result.now ≡ second_half word.now }
{
    &word[word.len().div_ceil(2)..]
}
