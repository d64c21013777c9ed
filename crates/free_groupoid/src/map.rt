//! Maps of walks from one triangulation to another.
ghost use Rattle.std.specs.Prelude.{◌≡◌, ◌<◌, ◌≤◌, ◌^◌, ℕ, List, length, map, slice_index, IfOk};
ghost use Rattle.std.specs.Prelude.{IfErr, OnOk, All};
ghost use Rattle.ideal_tri.specs.Words.{IsReduced};
ghost use Rattle.ideal_tri.specs.Triangulations.{edge_count};
ghost use Rattle.tri_atlas.specs.Arena.{Arena, IsArena, triangulation, IsTriIn, IsMoveIn};
ghost use Rattle.tri_atlas.specs.Arena.{source_of};
ghost use Rattle.tri_atlas.specs.Paths.{IsPathIn};
ghost use Rattle.free_groupoid.specs.GroupoidMaps.{IsMapIn, identity_map, followed, followed_along};
ghost use Rattle.free_groupoid.specs.GroupoidMaps.{composed, image_walk, vertex_image, letters_in};
ghost use Rattle.free_groupoid.specs.GroupoidMaps.{map_of_walks, AreImages, substitution};
ghost use Rattle.free_groupoid.specs.GroupoidMaps.{reduced_image};
ghost use Rattle.free_groupoid.specs.inside.Images.{IsBelow};
ghost use Rattle.free_groupoid.specs.Walks.{IsWalkOn};
ghost use Rattle.free_groupoid.specs.MapRefusals.{IsMoveRefusal, IsPathRefusal, IsCompositeRefusal};
ghost use Rattle.free_groupoid.specs.MapRefusals.{StaysWithin};

use crate::images::{Words, composed_words, letters_past, moved_words, substituted};
use crate::laws::groupoid_laws;
use crate::triangles::{
    TRIANGLES, composed_triangles, identity_triangles, image_triangles, moved_triangles,
};
use crate::walk::Walk;
use ideal_tri::{Label, Memory, surface_laws};
use smallvec::SmallVec;
use std::alloc::Global;
use std::marker::Model;
use tri_atlas::{Atlas, MoveId, Path, TriId, atlas_laws};

/// A map of the groupoid of walks on one triangulation to that of another, after Bell's flipper and
/// Farb and Margalit's outer automorphisms: a reduced walk for each label, and a triangle for each
/// triangle. Inverse labels get inverse walks.
#[derive(Drop)]
pub struct Map {
    source: TriId,
    target: TriId,
    // the images of the labels 0, 1, ..
    images: Words,
    // how many triangles the source has
    count: usize,
    // where each of them goes; what follows doesn't count
    triangles: [u32; TRIANGLES],
}

/// Why a map isn't given.
#[derive(Clone, Copy, Debug, PartialEq, Eq)]
pub enum MapError {
    /// No memory was found.
    Memory,
    /// The map has more letters than the cap: so many in the images of the labels 0, 1, ..
    /// together, or 2^64 - 1 where there are more.
    CapPassed {
        /// The number of letters.
        letters: u64,
    },
}

impl From<Memory> for MapError {
    ghost use Rattle.free_groupoid.specs.declared.map.MapError.TheVariants.{Memory};

    ghost from_gives = { λ _ e. e ≡ Memory };

    fn from(_: Memory) -> MapError {
        MapError::Memory
    }
}

impl Model for Map {
    ghost use Rattle.free_groupoid.specs.GroupoidMaps.{GroupoidMap};

    ghost Value = { GroupoidMap };

    ghost use Rattle.free_groupoid.specs.inside.Fields.{map_of, IsRoomy};

    ghost view = { map_of };

    ghost invariant = { IsRoomy };
}

impl Map {
    /// The map that leaves each letter and each triangle of a triangulation where it is.
    pub fn identity(alloc: Global, atlas: &Atlas, t: TriId) -> Result<Map, Memory>
        requires { IsTriIn atlas.now t }
        ensures value { IfOk result (λ f. f ≡ identity_map atlas.now t) }
        ensures maps { IfOk result (IsMapIn atlas.now) }
    {
        let _ = atlas.base();
        groupoid_laws();
        let tri = atlas.tri(t);
        let mut images = SmallVec::new(alloc);
        for n in 0..tri.edges() {
            images.push(vec![in alloc; Label::new(n as i32)]?)?;
        }
        let count = tri.triangles() as usize;
        Ok(Map {
            source: t,
            target: t,
            images,
            count,
            triangles: identity_triangles(count),
        })
    }

    /// The map that sends each of the labels 0, 1, .. of `source` along its reduced walk on
    /// `target`. Each triangle of `source` is to have one image: where the walk of each label
    /// starts that is a side of it, and where that of the inverse of each such label ends. It takes
    /// no memory.
    pub fn from_images(atlas: &Atlas, source: TriId, target: TriId, images: Vec<Walk>) -> Map
        requires { (triangles : List ℕ) × AreImages atlas.now source target images.items triangles }
        ensures value { (triangles : List ℕ) → AreImages atlas.now source target images.items
            triangles
            → result ≡ map_of_walks source target images.items triangles }
        ensures maps { IsMapIn atlas.now result }
    {
        let _ = atlas.base();
        let before = atlas.tri(source);
        let triangles = image_triangles(before, atlas.tri(target), &images);
        let mut words = SmallVec::new(*images.allocator());
        for walk in images {
            words.push_reserved(walk.letters);
        }
        Map {
            source,
            target,
            images: words,
            count: before.triangles() as usize,
            triangles,
        }
    }

    /// The triangulation whose walks are mapped.
    pub fn source(&self) -> TriId
        ensures { result ≡ self.now.source }
    {
        self.source
    }

    /// The triangulation of the images.
    pub fn target(&self) -> TriId
        ensures { result ≡ self.now.target }
    {
        self.target
    }

    /// Goes on by a move from where the map ends: each image is rewritten by the move's letters,
    /// and reduced as it grows. Where the map then has more letters than the cap, it is the one
    /// after the move all the same. It is unchanged where memory is wanting. The time is in
    /// proportion to its letters before.
    pub fn follow(&mut self, atlas: &Atlas, m: MoveId, cap: u64) -> Result<(), MapError>
        requires here { IsMoveIn atlas.now m }
        requires map { IsMapIn atlas.now self.old }
        requires follows { source_of atlas.now m ≡ self.old.target }
        requires cap { cap < 2 ^ 63 }
        ensures accepted { OnOk result ((self.new ≡ followed atlas.now self.old m)
            × (letters_in self.new.images ≤ cap)) }
        ensures refused { IfErr result (IsMoveRefusal atlas.now self.old self.new m cap) }
        ensures maps { IsMapIn atlas.now self.new }
    {
        let _ = atlas.base();
        surface_laws();
        atlas_laws();
        groupoid_laws();
        let step = atlas.step(m);
        let before = atlas.tri(self.target);
        let images = moved_words(*self.images.allocator(), &step, self.images.as_slice())?;
        self.images = images;
        self.target = atlas.target(m);
        let after = atlas.tri(self.target);
        self.triangles = moved_triangles(&step, before, after, &self.triangles[..self.count]);
        if let Some(letters) = letters_past(self.images.as_slice(), cap) {
            return Err(MapError::CapPassed { letters });
        }
        Ok(())
    }

    /// Goes on by the moves of a path from where the map ends. It stops at the first refusal, with
    /// the map after the moves that were made.
    pub fn follow_path(&mut self, atlas: &Atlas, p: &Path, cap: u64) -> Result<(), MapError>
        requires path { IsPathIn atlas.now p.now }
        requires map { IsMapIn atlas.now self.old }
        requires follows { p.now.start ≡ self.old.target }
        requires cap { cap < 2 ^ 63 }
        ensures accepted { OnOk result ((self.new
            ≡ followed_along atlas.now self.old p.now.moves)
            × StaysWithin atlas.now self.old p.now.moves cap) }
        ensures refused { IfErr result (IsPathRefusal atlas.now self.old self.new p.now.moves cap) }
        ensures maps { IsMapIn atlas.now self.new }
    {
        let _ = atlas.base();
        for m in p.moves() {
            self.follow(atlas, *m, cap)?;
        }
        Ok(())
    }

    /// This map, and then another from where it ends.
    pub fn then(&self, alloc: Global, next: &Map, cap: u64) -> Result<Map, MapError>
        requires maps { (arena : Arena) × IsMapIn arena self.now × IsMapIn arena next.now }
        requires follows { next.now.source ≡ self.now.target }
        requires cap { cap < 2 ^ 63 }
        ensures accepted { IfOk result (λ f. (f ≡ composed self.now next.now)
            × (letters_in f.images ≤ cap)) }
        ensures refused { IfErr result (IsCompositeRefusal self.now next.now cap) }
        ensures maps { IfOk result (λ f. (arena : Arena) → IsArena arena → IsMapIn arena self.now
            → IsMapIn arena next.now → IsMapIn arena f) }
    {
        surface_laws();
        groupoid_laws();
        let images = composed_words(alloc, self.images.as_slice(), next.images.as_slice())?;
        if let Some(letters) = letters_past(images.as_slice(), cap) {
            return Err(MapError::CapPassed { letters });
        }
        Ok(Map {
            source: self.source,
            target: next.target,
            images,
            count: self.count,
            triangles: composed_triangles(
                &self.triangles[..self.count],
                &next.triangles[..next.count],
            ),
        })
    }

    /// The image of a walk on the source, reduced.
    pub fn image(&self, alloc: Global, w: &Walk) -> Result<Walk, Memory>
        requires { (arena : Arena) × IsMapIn arena self.now
            × IsWalkOn (triangulation arena self.now.source) w.now }
        ensures value { IfOk result (λ v. v ≡ image_walk self.now w.now) }
        ensures walks { IfOk result (λ v. (arena : Arena) → IsArena arena → IsMapIn arena self.now
            → IsWalkOn (triangulation arena self.now.source) w.now
            → IsWalkOn (triangulation arena self.now.target) v) }
    {
        surface_laws();
        groupoid_laws();
        Ok(Walk {
            start: self.vertex(w.start),
            letters: substituted(alloc, self.images.as_slice(), &w.letters)?,
        })
    }

    /// A word with the images in the place of its letters, reduced.
    pub(crate) fn substituted(&self, alloc: Global, word: &[Label]) -> Result<Vec<Label>, Memory>
        requires below { IsBelow (length self.now.images) word.now }
        requires reduced { All IsReduced self.now.images }
        ensures { IfOk result (λ v. v.items ≡ reduced_image (substitution self.now.images)
            word.now) }
    {
        substituted(alloc, self.images.as_slice(), word)
    }

    /// The image of triangle `t` of the source.
    pub fn vertex(&self, t: u32) -> u32
        requires { t < length self.now.triangles }
        ensures { result ≡ vertex_image self.now t }
    {
        self.triangles[t as usize]
    }
}
