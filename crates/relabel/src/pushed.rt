//! Relabellings as moves of an atlas.
ghost use Rattle.std.specs.Prelude.{◌≡◌, IfOk, OnErr};
ghost use Rattle.ideal_tri.specs.Relabellings.{IsRelabelling};
ghost use Rattle.tri_atlas.specs.Arena.{triangulation, IsTriIn, Grows};
ghost use Rattle.relabel.specs.Pushed.{IsPushed};

use crate::relabelling::Relabelling;
use ideal_tri::Memory;
use tri_atlas::{Atlas, MoveId, TriId, atlas_laws};

/// Keeps a relabelling of one triangulation of an atlas onto another as a move, and answers it,
/// forwards. It wants memory only where there is no room for a push; where memory is wanting, the
/// atlas stays as it was.
pub fn push(atlas: &mut Atlas, from: TriId, to: TriId, r: &Relabelling) -> Result<MoveId, Memory>
    requires from { IsTriIn atlas.old from }
    requires to { IsTriIn atlas.old to }
    requires carries { IsRelabelling (triangulation atlas.old from)
        (triangulation atlas.old to) r.now }
    ensures accepted { IfOk result (λ m. IsPushed atlas.old atlas.new from to r.now m) }
    ensures refused { OnErr result (atlas.old.spare ≡ 0) }
    ensures unchanged { OnErr result (atlas.new ≡ atlas.old) }
    ensures grows { Grows atlas.old atlas.new }
{
    // an atlas with room and one more move begins as the atlas did
    atlas_laws();
    atlas.reserve(1)?;
    Ok(atlas.push_relabel(from, to, r.kept_images()))
}

#[cfg(test)]
mod tests {
    use super::*;
    use ideal_tri::{Label, Tri};
    use std::test::Fail;
    use tri_atlas::Carried;

    #[test]
    fn turn_as_a_move(rt: HostRuntime) -> Result<(), Fail> {
        let torus = Tri::from_triples(&[[0, 1, 2], [-1, -2, -3]])?;
        let mut atlas = Atlas::new(rt.alloc(), torus)?;
        let base = atlas.base();
        let turn = Relabelling::from_list(atlas.tri(base), atlas.tri(base), &[1, 2, 0])?;
        let m = push(&mut atlas, base, base, &turn)?;
        assert_eq!(rt; (atlas.source(m), atlas.target(m)), (base, base));
        let e = atlas.edge(base, -1).expect(&rt, "a label");
        assert!(rt; matches!(atlas.carry(m, e), Carried::Same(y) if y.label() == Label::new(-2)));
        let back = atlas.back(m);
        assert!(rt;
            matches!(atlas.carry(back, e), Carried::Same(y) if y.label() == Label::new(-3))
        );
        Ok(())
    }
}
