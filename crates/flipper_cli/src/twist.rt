//! From the coordinates of a curve and a hand to the steps of its Dehn twist.
ghost use Rattle.std.specs.Prelude.{◌≡◌, ◌⊎◌, ◌++◌, ◌∷◌, [], Err, IfOk, IfErr, OnOk, codes, map};
ghost use Rattle.std.specs.Prelude.{string_bytes};
ghost use Rattle.std.specs.Fmt.{decimal, signed_decimal};
ghost use Rattle.surface_lib.specs.Described.{described};
ghost use Rattle.flipper_cli.specs.Coordinates.{numbers_in};
ghost use Rattle.flipper_cli.specs.Headline.{AreTwistSteps, IsTwistLines};
ghost use Rattle.flipper_cli.specs.Report.{IsNumbersReport, IsTwistReport, IsVectorReport};
ghost use Rattle.flipper_cli.specs.inside.Shown.{shown};
ghost use Rattle.flipper_cli.specs.Show.{line};
ghost use Rattle.flipper_cli.specs.Twists.{hand_name, twist_lines};
ghost use Rattle.flipper_cli.specs.inside.AboutSurfaces.{IsAboutSurface};

use crate::coordinates::numbers_in;
use crate::refusal::Refusal;
use crate::show::push_number;
use edge_coords::Coords;
use ideal_tri::Memory;
use std::alloc::Global;
use surface_lib::{Hand, Surface};
use twist_compile::{TwistParts, twist_laws, twist_parts};

/// The lines of the Dehn twist of a hand about a curve, given by its coordinates. The atlas of the
/// surface keeps the triangulations of the descent.
pub(crate) fn twist(
    alloc: Global,
    s: &mut Surface,
    coordinates: &str,
    hand: Hand,
) -> Result<Vec<u8>, Refusal>
    ensures report { IsNumbersReport (described s.old) (IsTwistReport (described s.old) hand)
        (numbers_in coordinates.now) (shown result) ⊎ (result ≡ Err Refusal.Memory) }
    ensures printed { IfOk result (λ bytes.
        IsTwistLines (described s.old) coordinates.now hand bytes.items) }
    ensures refused { IfErr result IsAboutSurface }
{
    let numbers = numbers_in(alloc, coordinates)?;
    twist_about(alloc, s, &numbers, hand)
}

/// The lines of the twist about a curve, given by its numbers.
fn twist_about(
    alloc: Global,
    s: &mut Surface,
    numbers: &[u128],
    hand: Hand,
) -> Result<Vec<u8>, Refusal>
    ensures report { IsVectorReport (described s.old) (IsTwistReport (described s.old) hand)
        numbers.now (shown result) ⊎ (result ≡ Err Refusal.Memory) }
    ensures printed { IfOk result (λ bytes.
        AreTwistSteps (described s.old).triangles numbers.now hand bytes.items) }
    ensures refused { IfErr result IsAboutSurface }
{
    // the path of the steps is the twist
    twist_laws();
    let curve = Coords::new(&s.atlas, s.atlas.base(), numbers)?;
    let parts = twist_parts(alloc, &mut s.atlas, &curve)?;
    Ok(lines(alloc, hand, &parts)?)
}

/// The four lines: `hand`, `down`, `flip`, `relabel`, each with its values.
fn lines(alloc: Global, hand: Hand, parts: &TwistParts) -> Result<Vec<u8>, Memory>
    ensures { IfOk result (λ bytes. bytes.items
        ≡ twist_lines hand parts.now.down.items parts.now.flip parts.now.relabel.items) }
{
    let mut lines = String::new(alloc);
    push_hand(&mut lines, hand)?;
    push_edges(&mut lines, &parts.down)?;
    push_number(&mut lines, "flip", parts.flip)?;
    push_images(&mut lines, &parts.relabel)?;
    Ok(lines.into_bytes())
}

/// Writes the line of the hand.
fn push_hand(lines: &mut String, hand: Hand) -> Result<(), Memory>
    ensures { OnOk result (string_bytes lines.new
        ≡ string_bytes lines.old ++ line (codes "hand") (hand_name hand ∷ [])) }
{
    let word = match hand {
        Hand::Plus => "plus",
        Hand::Minus => "minus",
    };
    write!(lines, "hand {word}\n")?;
    Ok(())
}

/// Writes the line of the edges that the descent flips.
fn push_edges(lines: &mut String, edges: &[u32]) -> Result<(), Memory>
    ensures { OnOk result (string_bytes lines.new
        ≡ string_bytes lines.old ++ line (codes "down") (map decimal edges.now)) }
{
    lines.push_str("down")?;
    for e in edges {
        write!(lines, " {e}")?;
    }
    lines.push('\n')?;
    Ok(())
}

/// Writes the line of the images of the labels 0, 1, ..
fn push_images(lines: &mut String, images: &[i32]) -> Result<(), Memory>
    ensures { OnOk result (string_bytes lines.new
        ≡ string_bytes lines.old ++ line (codes "relabel") (map signed_decimal images.now)) }
{
    lines.push_str("relabel")?;
    for x in images {
        write!(lines, " {x}")?;
    }
    lines.push('\n')?;
    Ok(())
}

#[cfg(test)]
mod tests {
    use super::*;
    use std::test::Fail;

    #[test]
    fn lines_of_parts(rt: HostRuntime) -> Result<(), Fail> {
        let alloc = rt.alloc();
        for (hand, down, relabel, text) in [
            (
                Hand::Plus,
                &[][..],
                &[2, 1, -1][..],
                "hand plus\ndown\nflip 0\nrelabel 2 1 -1\n",
            ),
            (
                Hand::Minus,
                &[10, 0][..],
                &[-48][..],
                "hand minus\ndown 10 0\nflip 0\nrelabel -48\n",
            ),
        ] {
            let parts = TwistParts {
                down: down.to_vec(alloc)?,
                flip: 0,
                relabel: relabel.to_vec(alloc)?,
            };
            let bytes = lines(alloc, hand, &parts)?;
            assert_eq!(rt; bytes.as_slice(), text.as_bytes());
        }
        Ok(())
    }
}
