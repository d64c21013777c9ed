//! What is proved of the definitions that the contracts cite. The functions do nothing: a body that
//! calls one knows its laws from there on.
ghost use Rattle.tri_atlas.specs.MapLaws.{MapLaws};
ghost use Rattle.tri_atlas.specs.AtlasLaws.{AtlasLaws};

use ideal_tri::{bijection_laws, flip_laws, label_laws, relabelling_laws, surface_laws, word_laws};

/// What is proved of the maps of moves and paths.
pub fn map_laws()
    ensures { MapLaws }
{
    label_laws();
    word_laws();
    surface_laws();
    flip_laws();
    bijection_laws();
    relabelling_laws();
}

/// What is proved of atlases as they grow, of their moves and of their paths.
pub fn atlas_laws()
    ensures { AtlasLaws }
{
    map_laws();
}
