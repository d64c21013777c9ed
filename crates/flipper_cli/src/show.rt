//! What `show` prints of a surface.
ghost use Rattle.std.specs.Prelude.{◌≡◌, ◌++◌, [], ◌∷◌, IfOk, OnOk, map, codes, string_bytes};
ghost use Rattle.surface_lib.specs.Described.{described};
ghost use Rattle.flipper_cli.specs.Show.{show_lines, line, number_line, components_line};

use ideal_tri::Memory;
use std::alloc::Global;
use surface_lib::Surface;

/// The lines that `show` prints: `name`, `edges`, `triangles`, `vertices`, `genus`, each with its
/// value, `generators` with their names, and, where there are several components, `components` with
/// their number.
pub(crate) fn show(alloc: Global, s: &Surface) -> Result<Vec<u8>, Memory>
    ensures { IfOk result (λ b. b.items ≡ show_lines (described s.now)) }
{
    let mut lines = String::new(alloc);
    push_name(&mut lines, s.name.as_str())?;
    let tri = s.atlas.tri(s.atlas.base());
    push_number(&mut lines, "edges", tri.edges())?;
    push_number(&mut lines, "triangles", tri.triangles())?;
    push_number(&mut lines, "vertices", tri.vertex_count())?;
    push_number(&mut lines, "genus", tri.genus())?;
    push_generators(&mut lines, s)?;
    push_components(&mut lines, tri.components())?;
    Ok(lines.into_bytes())
}

/// Writes the line of the name.
fn push_name(lines: &mut String, name: &str) -> Result<(), Memory>
    ensures { OnOk result (string_bytes lines.new
        ≡ string_bytes lines.old ++ line (codes "name") (name.now ∷ [])) }
{
    write!(lines, "name {name}\n")?;
    Ok(())
}

/// Writes a line of a word and a number.
pub(crate) fn push_number(lines: &mut String, word: &str, number: u32) -> Result<(), Memory>
    ensures { OnOk result (string_bytes lines.new
        ≡ string_bytes lines.old ++ number_line word.now number) }
{
    write!(lines, "{word} {number}\n")?;
    Ok(())
}

/// Writes the line of the generators' names.
fn push_generators(lines: &mut String, s: &Surface) -> Result<(), Memory>
    ensures { OnOk result (string_bytes lines.new ≡ string_bytes lines.old
        ++ line (codes "generators") (map (λ g. g.spelt) (described s.now).generators)) }
{
    lines.push_str("generators")?;
    for name in s.generators.keys() {
        write!(lines, " {name}")?;
    }
    lines.push('\n')?;
    Ok(())
}

/// Writes the line of the number of components, if there are several.
fn push_components(lines: &mut String, components: u32) -> Result<(), Memory>
    ensures { OnOk result (string_bytes lines.new
        ≡ string_bytes lines.old ++ components_line components) }
{
    if components > 1 {
        push_number(lines, "components", components)?;
    }
    Ok(())
}

#[cfg(test)]
mod tests {
    use super::*;
    use ideal_tri::Tri;
    use indexmap::IndexMap;
    use std::test::Fail;
    use tri_atlas::{Atlas, Path};

    /// A surface whose generators, with these names, do nothing.
    fn surface(
        alloc: Global,
        name: &str,
        triples: &[[i32; 3]],
        names: &[&str],
    ) -> Result<Surface, Fail> {
        let atlas = Atlas::new(alloc, Tri::from_components(triples)?)?;
        let mut generators = IndexMap::new(alloc);
        for generator in names {
            generators.insert(
                String::from_str(alloc, generator)?,
                Path::new(alloc, atlas.base()),
            )?;
        }
        Ok(Surface {
            name: String::from_str(alloc, name)?,
            atlas,
            generators,
        })
    }

    #[test]
    fn surfaces(rt: HostRuntime) -> Result<(), Fail> {
        let torus = [[0, 1, 2], [-1, -2, -3]];
        let spheres = [[0, 1, 2], [-1, -3, -2], [3, 4, 5], [-4, -6, -5]];
        for (name, triples, names, lines) in [
            (
                "torus",
                &torus[..],
                &[][..],
                "name torus\nedges 3\ntriangles 2\nvertices 1\ngenus 1\ngenerators\n",
            ),
            (
                "S_1_1",
                &torus[..],
                &["b", "a_0"][..],
                "name S_1_1\nedges 3\ntriangles 2\nvertices 1\ngenus 1\ngenerators b a_0\n",
            ),
            (
                "two-spheres",
                &spheres[..],
                &["r"][..],
                "name two-spheres\nedges 6\ntriangles 4\nvertices 6\ngenus 0\ngenerators r\ncomponents 2\n",
            ),
        ] {
            let s = surface(rt.alloc(), name, triples, names)?;
            let shown = show(rt.alloc(), &s)?;
            assert_eq!(rt; shown.as_slice(), lines.as_bytes());
        }
        Ok(())
    }
}
