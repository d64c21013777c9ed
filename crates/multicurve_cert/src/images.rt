//! The images of a vector under the powers of the word.
ghost use Rattle.std.specs.Prelude.{◌≡◌, ◌<◌, ◌+◌, ◌⊎◌, true, false, length, IfOk, OnOk};
ghost use Rattle.tri_atlas.specs.Paths.{IsPathIn, moves_of};
ghost use Rattle.edge_coords.specs.Coordinates.{AreCoordinatesIn};
ghost use Rattle.multicurve_cert.specs.inside.Images.{AreImages, first_of};

use crate::power_law::power_laws;
use edge_coords::Coords;
use ideal_tri::Memory;
use std::alloc::Global;
use tri_atlas::{Atlas, Path};

/// The images of a vector under the powers of a path, as many as have been needed.
#[derive(Drop)]
pub(crate) struct Images {
    /// The vector, its image, the image of that, and so on.
    pub(crate) list: Vec<Coords>,
    /// Whether the next one has a number of 2^126 or more. Then there are no more.
    pub(crate) ended: bool,
}

impl Images {
    /// The vector alone.
    pub(crate) fn new(
        alloc: Global,
        atlas: &Atlas,
        word: &Path,
        vector: Coords,
    ) -> Result<Images, Memory>
        requires path { IsPathIn atlas.now word.now }
        requires start { word.now.start ≡ 0 }
        requires end { word.now.end ≡ 0 }
        requires coordinates { AreCoordinatesIn atlas.now vector }
        requires base { vector.tri ≡ 0 }
        ensures images { IfOk result (λ i. AreImages atlas.now (moves_of atlas.now word.now) i.ended
            i.list.items) }
        ensures first { IfOk result (λ i. first_of i.list.items ≡ vector.numbers) }
    {
        power_laws(atlas, word);
        let mut list = Vec::new(alloc);
        list.push(vector)?;
        Ok(Images { list, ended: false })
    }

    /// Makes the images up to this number, or until one is too large.
    pub(crate) fn extend(&mut self, atlas: &Atlas, word: &Path, number: usize) -> Result<(), Memory>
        requires path { IsPathIn atlas.now word.now }
        requires start { word.now.start ≡ 0 }
        requires end { word.now.end ≡ 0 }
        requires number { number < 64 }
        requires images { AreImages atlas.now (moves_of atlas.now word.now) self.old.ended
            self.old.list.items }
        ensures images { OnOk result (AreImages atlas.now (moves_of atlas.now word.now)
            self.new.ended self.new.list.items) }
        ensures first { OnOk result (first_of self.new.list.items
            ≡ first_of self.old.list.items) }
        ensures enough { OnOk result ((number < length self.new.list.items)
            ⊎ (self.new.ended ≡ true)) }
    {
        for _ in self.list.len()..number + 1 {
            if !self.ended {
                self.push_next(atlas, word)?;
            }
        }
        Ok(())
    }

    /// Makes the next image, where it isn't too large.
    fn push_next(&mut self, atlas: &Atlas, word: &Path) -> Result<(), Memory>
        requires path { IsPathIn atlas.now word.now }
        requires start { word.now.start ≡ 0 }
        requires end { word.now.end ≡ 0 }
        requires going_on { self.old.ended ≡ false }
        requires images { AreImages atlas.now (moves_of atlas.now word.now) self.old.ended
            self.old.list.items }
        ensures images { OnOk result (AreImages atlas.now (moves_of atlas.now word.now)
            self.new.ended self.new.list.items) }
        ensures first { OnOk result (first_of self.new.list.items
            ≡ first_of self.old.list.items) }
        ensures more { OnOk result ((self.new.ended ≡ true)
            ⊎ (length self.new.list.items ≡ length self.old.list.items + 1)) }
    {
        power_laws(atlas, word);
        let mut image = self.list[self.list.len() - 1];
        match image.follow(atlas, word) {
            Ok(()) => self.list.push(image)?,
            Err(_) => self.ended = true,
        }
        Ok(())
    }
}
