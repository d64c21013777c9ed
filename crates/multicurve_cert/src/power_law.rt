//! What is proved of the images of multicurves under the powers of a path.
ghost use Rattle.std.specs.Prelude.{◌≡◌};
ghost use Rattle.tri_atlas.specs.Arena.{triangulation};
ghost use Rattle.tri_atlas.specs.Paths.{IsPathIn, moves_of};
ghost use Rattle.multicurve_cert.specs.PowerLaws.{PowerLaws};

use ideal_tri::drawing_laws;
use tri_atlas::{Atlas, Path, atlas_laws, map_laws, vector_laws};

/// What is proved of the images of multicurves under the powers of a path from the base to the base:
/// they are what the moves make of the vector, one power after another. It does nothing: a caller
/// learns the laws.
pub fn power_laws(atlas: &Atlas, word: &Path)
    requires path { IsPathIn atlas.now word.now }
    requires start { word.now.start ≡ 0 }
    requires end { word.now.end ≡ 0 }
    ensures { PowerLaws (triangulation atlas.now 0) (moves_of atlas.now word.now) }
{
    // what is true of every atlas
    let _ = atlas.base();
    atlas_laws();
    map_laws();
    vector_laws();
    drawing_laws();
}
