//! Surfaces with named generators.
ghost use Rattle.std.specs.Prelude.{◌≡◌, ◌<◌, ◌^◌, [], ◌∷◌, ◌++◌, length, true, false};
ghost use Rattle.std.specs.Prelude.{IfOk, OnOk};
ghost use Rattle.tri_atlas.specs.Paths.{moves_of};
ghost use Rattle.surface_lib.specs.Described.{described};
ghost use Rattle.surface_lib.specs.GeneratorFiles.{is_taken};
ghost use Rattle.surface_lib.specs.Spelling.{is_generator_name};
ghost use Rattle.surface_lib.specs.Surfaces.{IsSurface, IsLoop};

use ideal_tri::{Memory, Tri};
use indexmap::IndexMap;
use std::alloc::Global;
use tri_atlas::{Atlas, Path};

/// A punctured surface: its name, an atlas whose base is its ideal triangulation, and the
/// generators of its words in the order in which they were given, each a path of the atlas from the
/// base to the base.
///
/// Each call that takes a surface asks that the names of its generators are spelt with a lower-case
/// letter and at most 15 lower-case letters, digits or `_` behind it, and that their paths have
/// fewer than 2^31 moves.
#[derive(Drop)]
pub struct Surface {
    pub name: String,
    pub atlas: Atlas,
    pub generators: IndexMap<String, Path>,
}

impl Surface {
    /// The surface with this name and base, and no generators.
    pub(crate) fn new(alloc: Global, name: &str, base: Tri) -> Result<Surface, Memory>
        ensures surface { IfOk result IsSurface }
        ensures holds { IfOk result (λ s.
            described s ≡ record { name = name.now; triangles = base; generators = [] }) }
    {
        Ok(Surface {
            name: String::from_str(alloc, name)?,
            atlas: Atlas::new(alloc, base)?,
            generators: IndexMap::new(alloc),
        })
    }

    /// Puts a generator behind the others; where one has this name, the path takes the place of its
    /// path.
    pub(crate) fn insert(&mut self, alloc: Global, name: &str, path: Path) -> Result<(), Memory>
        requires surface { IsSurface self.old }
        requires spelt { is_generator_name name.now ≡ true }
        requires closed { IsLoop self.old.atlas path }
        requires short { length path.moves < 2 ^ 31 }
        ensures surface { OnOk result (IsSurface self.new) }
        ensures atlas { OnOk result (self.new.atlas ≡ self.old.atlas) }
        ensures name { OnOk result (self.new.name ≡ self.old.name) }
        ensures behind { OnOk result (is_taken (described self.old).generators name.now ≡ false
            → (described self.new).generators ≡ (described self.old).generators
            ++ record { spelt = name.now; moves = moves_of self.old.atlas path } ∷ []) }
    {
        let name = String::from_str(alloc, name)?;
        self.generators.insert(name, path)?;
        Ok(())
    }
}
