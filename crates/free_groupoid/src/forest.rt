//! The spanning forest of a triangulation: a tree for each component, grown breadth first.
ghost use Rattle.std.specs.Prelude.{◌≡◌, ◌<◌, ◌++◌, ◌∷◌, [], List, length, IfOk, OnOk};
ghost use Rattle.ideal_tri.specs.Triangulations.{IsLabel};
ghost use Rattle.free_groupoid.specs.TestWalks.{Node, root_node, has_node, node_at, sides_in_order};
ghost use Rattle.free_groupoid.specs.TestWalks.{sprout, grow, forest, ends_across, is_tree_edge};
ghost use Rattle.free_groupoid.specs.TestWalks.{root_of, tree_walk, root_of_edge, outer_edges};
ghost use Rattle.free_groupoid.specs.TestWalks.{edges_at, loop};
ghost use Rattle.std.specs.List.{list_any};
ghost use Rattle.free_groupoid.specs.inside.Sprouting.{tried};

use ideal_tri::{Label, Memory, Tri};
use std::alloc::Global;
use std::marker::Model;

/// A triangle of a tree, the root of the tree, and the walk along the tree from there.
#[derive(Drop)]
pub(crate) struct Node {
    triangle: u32,
    root: u32,
    walk: Vec<Label>,
}

impl Model for Node {
    ghost use Rattle.free_groupoid.specs.TestWalks.{Node};

    ghost Value = { Node };

    ghost view = { λ a. record { triangle = a.triangle; root = a.root; walk = a.walk.items } };
}

/// The triangles in the order in which the trees reach them.
#[derive(Drop)]
pub(crate) struct Forest {
    nodes: Vec<Node>,
}

impl Model for Forest {
    ghost use Rattle.std.specs.Prelude.{List};
    ghost use Rattle.free_groupoid.specs.TestWalks.{Node};

    ghost Value = { List Node };

    ghost view = { λ a. a.nodes.items };
}

impl Node {
    fn copy(&self, alloc: Global) -> Result<Node, Memory>
        ensures { IfOk result (λ n. n ≡ self.now) }
    {
        Ok(Node {
            triangle: self.triangle,
            root: self.root,
            walk: Vec::from_slice(alloc, &self.walk)?,
        })
    }
}

impl Forest {
    /// A tree for each component, from its least triangle.
    pub(crate) fn new(alloc: Global, tri: &Tri) -> Result<Forest, Memory>
        ensures { IfOk result (λ v. v ≡ forest tri.now) }
    {
        let mut nodes = Vec::new(alloc);
        for t in 0..tri.triangles() {
            if !has_node(&nodes, t) {
                grow(alloc, tri, t, &mut nodes)?;
            }
        }
        Ok(Forest { nodes })
    }

    /// The triangle where the tree of triangle `t` begins.
    pub(crate) fn root(&self, t: u32) -> u32
        ensures { result ≡ (node_at self.now t).root }
    {
        for n in &self.nodes {
            if n.triangle == t {
                return n.root;
            }
        }
        t
    }

    /// The walk along the tree from there to triangle `t`.
    pub(crate) fn walk(&self, t: u32) -> &[Label]
        ensures { result.now ≡ (node_at self.now t).walk }
    {
        for n in &self.nodes {
            if n.triangle == t {
                return &n.walk;
            }
        }
        &[]
    }

    /// Whether a tree crosses the edge.
    pub(crate) fn crosses(&self, e: u32) -> bool
        ensures { result ≡ list_any (λ n. ends_across e n.walk) self.now }
    {
        for n in &self.nodes {
            if ends_across(&n.walk, e) {
                return true;
            }
        }
        false
    }
}

/// Whether a walk ends with a step across the edge.
fn ends_across(walk: &[Label], e: u32) -> bool
    ensures { result ≡ ends_across e walk.now }
{
    match walk.last() {
        Some(x) => x.edge() == e,
        None => false,
    }
}

/// Whether a node stands at the triangle.
fn has_node(nodes: &[Node], t: u32) -> bool
    ensures { result ≡ has_node nodes.now t }
{
    for n in nodes {
        if n.triangle == t {
            return true;
        }
    }
    false
}

/// Grows a tree from a triangle that is new. Each node has one turn, and there are no more of them
/// than triangles.
fn grow(alloc: Global, tri: &Tri, t: u32, nodes: &mut Vec<Node>) -> Result<(), Memory>
    ensures { OnOk result (nodes.new.items ≡ grow tri.now (length tri.now) nodes.old.items
        (root_node t ∷ [])) }
{
    let first = nodes.len();
    nodes.push(Node {
        triangle: t,
        root: t,
        walk: Vec::new(alloc),
    })?;
    for k in 0..tri.triangles() {
        let i = first + k as usize;
        if i < nodes.len() {
            sprout(alloc, tri, i, nodes)?;
        }
    }
    Ok(())
}

/// Puts nodes beyond the sides of the node with this number where the triangles there are new.
fn sprout(alloc: Global, tri: &Tri, i: usize, nodes: &mut Vec<Node>) -> Result<(), Memory>
    requires { i < length nodes.old.items }
    ensures { OnOk result ((done queue : List Node) (n : Node)
        → nodes.old.items ≡ done ++ n ∷ queue → length done ≡ i
        → nodes.new.items ≡ (done ++ n ∷ []) ++ sprout tri.now n (sides_in_order tri.now
        n.triangle) (done ++ n ∷ []) queue) }
{
    let node = nodes[i].copy(alloc)?;
    for e in 0..tri.edges() {
        let x = Label::new(e as i32);
        push_beyond(alloc, tri, &node, x, nodes)?;
        push_beyond(alloc, tri, &node, x.inverse(), nodes)?;
    }
    Ok(())
}

/// Puts a node beyond the label where it is a side of the node's triangle and the triangle there is
/// new.
fn push_beyond(
    alloc: Global,
    tri: &Tri,
    node: &Node,
    x: Label,
    nodes: &mut Vec<Node>,
) -> Result<(), Memory>
    requires { IsLabel tri.now x }
    ensures { OnOk result (nodes.new.items ≡ tried tri.now node.now x nodes.old.items) }
{
    let beyond = tri.place(x.inverse()).0;
    if tri.place(x).0 == node.triangle && !has_node(nodes, beyond) {
        let mut walk = Vec::from_slice(alloc, &node.walk)?;
        walk.push(x)?;
        nodes.push(Node {
            triangle: beyond,
            root: node.root,
            walk,
        })?;
    }
    Ok(())
}
