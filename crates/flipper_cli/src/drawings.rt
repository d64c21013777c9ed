//! Worked drawings, beside the headline.
ghost use Rattle.flipper_cli.specs.WorkedDrawings.{WorkedDrawings};

/// Curves that draw (1,1,0) and (2,2,0) on the once-punctured torus and (2,1,1) on the
/// three-punctured sphere, and the images of the last under a rotation of the sphere: what a
/// drawing is, and what the headline says of it, at numbers. The function does nothing: its
/// contract is there to be checked.
pub fn worked_drawings()
    ensures { WorkedDrawings }
{}
