//! Bijections of labels, by the images of the labels 0, 1, ..
ghost use Rattle.std.specs.Prelude.{◌≡◌, ◌≤◌, ◌-◌, pos, take, drop, replicate};
ghost use Rattle.ideal_tri.specs.Relabellings.{IsBijection, inverse_images};

use crate::label::Label;
use crate::tri::EDGES;

/// The images under a bijection of the labels of so many edges backwards, for the labels 0, 1, ..,
/// and zeros after them. Only the first images count, one for each edge.
pub fn inverse_images(images: &[Label; EDGES], edges: usize) -> [Label; EDGES]
    requires few { edges ≤ EDGES }
    requires bijection { IsBijection (take edges images.now) }
    ensures images { take edges result ≡ inverse_images (take edges images.now) }
    ensures rest { drop edges result ≡ replicate (EDGES - edges) (pos 0) }
{
    let mut inverse = [Label::new(0); EDGES];
    for n in 0..edges {
        let image = images[n];
        inverse[image.edge() as usize] = Label::new(n as i32).with_sign_of(image);
    }
    inverse
}
