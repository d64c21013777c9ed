//! The numbers of a vector, and the line of one.
ghost use Rattle.std.specs.Prelude.{◌≡◌, ◌++◌, [], IfOk, OnOk, string_bytes};
ghost use Rattle.flipper_cli.specs.Line.{line_of, spaced_numbers};

use ideal_tri::Memory;

/// Decimal numbers with one space between them, and the end of the line, written into an empty text.
pub(crate) fn line_of(room: String, vector: &[u128]) -> Result<Vec<u8>, Memory>
    requires { string_bytes room ≡ [] }
    ensures { IfOk result (λ b. b.items ≡ line_of vector.now) }
{
    let mut line = room;
    push_numbers(&mut line, vector)?;
    line.push('\n')?;
    Ok(line.into_bytes())
}

/// Writes decimal numbers with one space between them.
pub(crate) fn push_numbers(line: &mut String, numbers: &[u128]) -> Result<(), Memory>
    ensures { OnOk result (string_bytes line.new
        ≡ string_bytes line.old ++ spaced_numbers numbers.now) }
{
    for (k, n) in numbers.iter().enumerate() {
        if k > 0 {
            line.push(' ')?;
        }
        write!(line, "{n}")?;
    }
    Ok(())
}

#[cfg(test)]
mod tests {
    use super::*;
    use std::test::Fail;

    #[test]
    fn lines(rt: HostRuntime) -> Result<(), Fail> {
        for (vector, line) in [
            (&[0, 1, 10][..], "0 1 10\n"),
            (
                &[(1 << 126) - 1, 0][..],
                "85070591730234615865843651857942052863 0\n",
            ),
            (&[][..], "\n"),
        ] {
            let bytes = line_of(String::new(rt.alloc()), vector)?;
            assert_eq!(rt; bytes.as_slice(), line.as_bytes());
        }
        Ok(())
    }
}
