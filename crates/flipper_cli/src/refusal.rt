//! Why nothing is printed on the output, and the line on the error stream that says so.
ghost use Rattle.std.specs.Prelude.{◌≡◌, ◌++◌, codes, IfOk, OnOk, string_bytes};
ghost use Rattle.flipper_cli.specs.ErrorTexts.{with_number, with_label, with_key, key_name};
ghost use Rattle.flipper_cli.specs.ErrorTexts.{word_text, fault_text, surface_text};
ghost use Rattle.flipper_cli.specs.ErrorTexts.{certificate_key_name, with_certificate_key};
ghost use Rattle.flipper_cli.specs.RefusalLines.{coords_text, coordinates_text, overflow_text};
ghost use Rattle.flipper_cli.specs.RefusalLines.{twist_text, certificate_text};
ghost use Rattle.flipper_cli.specs.RefusalLines.{refusal_text, line_for};
ghost use Rattle.flipper_cli.specs.RefusalCauses.{for_unread_certificate};

use crate::coordinates::NumbersError;
use cert_text::{CertError, CertKey};
use edge_coords::{CoordsError, OverflowAt};
use flip_io::ReadError;
use ideal_tri::Memory;
use std::alloc::{AllocError, Global};
use surface_lib::{BuiltinError, GeneratorFault, Key, SurfaceError, TwistError, WordError};

/// Why a text is not the coordinates of a multicurve: the first test that fails, in the order of
/// the variants.
#[derive(Clone, Copy, Debug, PartialEq, Eq)]
pub enum CoordinatesError {
    /// The field of this index, counted from 0, is no decimal number.
    BadNumber(u64),
    /// The numbers are not the coordinates of a multicurve.
    Coords(CoordsError),
}

/// Why there is no Dehn twist about a multicurve: the first test that fails, in the order of the
/// variants.
#[derive(Clone, Copy, Debug, PartialEq, Eq)]
pub enum TwistFault {
    /// The multicurve crosses the edges so often in all: above 4,096.
    TotalOver(u128),
    /// The multicurve is not one curve.
    NotOneCurve,
    /// The curve runs round a vertex.
    Peripheral,
    /// The descent of the curve ends at this total, which is above 2.
    Stuck(u128),
}

/// Why a file holds no certificate: the first test that fails, in the order of the variants.
#[derive(Clone, Copy, Debug, PartialEq, Eq)]
pub enum CertificateFault {
    /// The file has more than 67,108,864 bytes.
    FileTooLong,
    /// What is read of it is no JSON text.
    NotJson,
    /// The object has no such key.
    MissingKey(CertKey),
    /// What is read is no object, or the value at its key has another shape.
    BadShape(CertKey),
}

/// Why nothing is printed on the output.
#[derive(Clone, Copy, Debug, PartialEq, Eq)]
pub enum Refusal {
    /// The words of the command line fit no command.
    Usage,
    /// There is no file of the name of the surface's or of the certificate's.
    Absent,
    /// A read of the surface's or of the certificate's file failed.
    Failed,
    /// No surface of this name comes with the program.
    UnknownBuiltin,
    /// The file holds no surface. The error is never `Memory`.
    Surface(SurfaceError),
    /// The text is no word in the generators of the surface. The error is never `Memory`.
    Word(WordError),
    /// The text is not the coordinates of a multicurve.
    Coordinates(CoordinatesError),
    /// There is no Dehn twist about the multicurve.
    Twist(TwistFault),
    /// The file holds no certificate.
    Certificate(CertificateFault),
    /// A flip of the word gives a coordinate of 2^126 or more.
    Overflow(OverflowAt),
    /// No memory was found.
    Memory,
}

impl From<Memory> for Refusal {
    ghost use Rattle.std.specs.Prelude.{◌≡◌};
    ghost use Rattle.flipper_cli.specs.declared.refusal.Refusal.TheVariants.{Memory};

    ghost from_gives = { λ _ refusal. refusal ≡ Memory };

    fn from(_: Memory) -> Refusal {
        Refusal::Memory
    }
}

impl From<ReadError> for Refusal {
    ghost use Rattle.std.specs.Prelude.{◌≡◌};
    ghost use Rattle.flipper_cli.specs.RefusalCauses.{for_read};

    ghost from_gives = { λ error refusal. refusal ≡ for_read error };

    fn from(error: ReadError) -> Refusal {
        match error {
            ReadError::Absent => Refusal::Absent,
            ReadError::Failed => Refusal::Failed,
            ReadError::TooLong => Refusal::Surface(SurfaceError::FileTooLong),
            ReadError::Memory => Refusal::Memory,
        }
    }
}

impl From<SurfaceError> for Refusal {
    ghost use Rattle.std.specs.Prelude.{◌≡◌};
    ghost use Rattle.flipper_cli.specs.RefusalCauses.{for_surface};

    ghost from_gives = { λ error refusal. refusal ≡ for_surface error };

    fn from(error: SurfaceError) -> Refusal {
        match error {
            SurfaceError::Memory => Refusal::Memory,
            _ => Refusal::Surface(error),
        }
    }
}

impl From<WordError> for Refusal {
    ghost use Rattle.std.specs.Prelude.{◌≡◌};
    ghost use Rattle.flipper_cli.specs.RefusalCauses.{for_word};

    ghost from_gives = { λ error refusal. refusal ≡ for_word error };

    fn from(error: WordError) -> Refusal {
        match error {
            WordError::Memory => Refusal::Memory,
            _ => Refusal::Word(error),
        }
    }
}

impl From<NumbersError> for Refusal {
    ghost use Rattle.std.specs.Prelude.{◌≡◌};
    ghost use Rattle.flipper_cli.specs.RefusalCauses.{for_numbers};

    ghost from_gives = { λ error refusal. refusal ≡ for_numbers error };

    fn from(error: NumbersError) -> Refusal {
        match error {
            NumbersError::BadNumber(i) => Refusal::Coordinates(CoordinatesError::BadNumber(i)),
            NumbersError::Memory => Refusal::Memory,
        }
    }
}

impl From<CoordsError> for Refusal {
    ghost use Rattle.std.specs.Prelude.{◌≡◌};
    ghost use Rattle.flipper_cli.specs.declared.refusal.CoordinatesError.TheVariants.{Coords};
    ghost use Rattle.flipper_cli.specs.declared.refusal.Refusal.TheVariants.{Coordinates};

    ghost from_gives = { λ error refusal. refusal ≡ Coordinates (Coords error) };

    fn from(error: CoordsError) -> Refusal {
        Refusal::Coordinates(CoordinatesError::Coords(error))
    }
}

impl From<TwistError> for Refusal {
    ghost use Rattle.std.specs.Prelude.{◌≡◌};
    ghost use Rattle.flipper_cli.specs.RefusalCauses.{for_twist};

    ghost from_gives = { λ error refusal. refusal ≡ for_twist error };

    fn from(error: TwistError) -> Refusal {
        Refusal::Twist(match error {
            TwistError::TotalOver { total } => TwistFault::TotalOver(total),
            TwistError::NotOneCurve => TwistFault::NotOneCurve,
            TwistError::Peripheral => TwistFault::Peripheral,
            TwistError::Stuck { at } => TwistFault::Stuck(at.total()),
            TwistError::Memory => return Refusal::Memory,
        })
    }
}

impl From<CertError> for Refusal {
    ghost use Rattle.std.specs.Prelude.{◌≡◌};
    ghost use Rattle.flipper_cli.specs.RefusalCauses.{for_certificate};

    ghost from_gives = { λ error refusal. refusal ≡ for_certificate error };

    fn from(error: CertError) -> Refusal {
        Refusal::Certificate(match error {
            CertError::NotJson => CertificateFault::NotJson,
            CertError::MissingKey(key) => CertificateFault::MissingKey(key),
            CertError::BadShape(key) => CertificateFault::BadShape(key),
            CertError::Memory => return Refusal::Memory,
        })
    }
}

/// The refusal for a certificate's file that couldn't be read whole.
pub(crate) fn unread_certificate(error: ReadError) -> Refusal
    ensures { result ≡ for_unread_certificate error }
{
    match error {
        ReadError::Absent => Refusal::Absent,
        ReadError::Failed => Refusal::Failed,
        ReadError::TooLong => Refusal::Certificate(CertificateFault::FileTooLong),
        ReadError::Memory => Refusal::Memory,
    }
}

impl From<OverflowAt> for Refusal {
    ghost use Rattle.std.specs.Prelude.{◌≡◌};
    ghost use Rattle.flipper_cli.specs.declared.refusal.Refusal.TheVariants.{Overflow};

    ghost from_gives = { λ overflow refusal. refusal ≡ Overflow overflow };

    fn from(overflow: OverflowAt) -> Refusal {
        Refusal::Overflow(overflow)
    }
}

impl From<BuiltinError> for Refusal {
    ghost use Rattle.std.specs.Prelude.{◌≡◌};
    ghost use Rattle.flipper_cli.specs.RefusalCauses.{for_builtin};

    ghost from_gives = { λ error refusal. refusal ≡ for_builtin error };

    fn from(error: BuiltinError) -> Refusal {
        match error {
            BuiltinError::UnknownBuiltin => Refusal::UnknownBuiltin,
            BuiltinError::Memory => Refusal::Memory,
        }
    }
}

impl Refusal {
    /// The line on the error stream.
    pub(crate) fn line(self, alloc: Global) -> Result<Vec<u8>, Memory>
        ensures { IfOk result (λ bytes. bytes.items ≡ line_for self) }
    {
        let mut line = String::new(alloc);
        line.push_str("error: ")?;
        push_refusal(&mut line, self)?;
        line.push_str("\n")?;
        Ok(line.into_bytes())
    }
}

// ---- a name, and what stands behind it

fn push_text(line: &mut String, text: &str) -> Result<(), AllocError>
    ensures { OnOk result (string_bytes line.new ≡ string_bytes line.old ++ text.now) }
{
    line.push_str(text)
}

fn push_wide(line: &mut String, name: &str, number: u128) -> Result<(), AllocError>
    ensures { OnOk result
        (string_bytes line.new ≡ string_bytes line.old ++ with_number name.now number) }
{
    write!(line, "{name} {number}")
}

fn push_number(line: &mut String, name: &str, number: u64) -> Result<(), AllocError>
    ensures { OnOk result
        (string_bytes line.new ≡ string_bytes line.old ++ with_number name.now number) }
{
    push_wide(line, name, u128::from(number))
}

fn push_label(line: &mut String, name: &str, label: i32) -> Result<(), AllocError>
    ensures { OnOk result
        (string_bytes line.new ≡ string_bytes line.old ++ with_label name.now label) }
{
    write!(line, "{name} {label}")
}

/// The key as it stands in a surface file.
fn key_name(key: Key) -> &'static str
    ensures { result.now ≡ key_name key }
{
    match key {
        Key::File => "file",
        Key::Format => "format",
        Key::Version => "version",
        Key::Name => "name",
        Key::Triangles => "triangles",
        Key::Generators => "generators",
        Key::Generator => "generator",
        Key::Flips => "flips",
        Key::Relabel => "relabel",
        Key::Twist => "twist",
        Key::Hand => "hand",
        Key::Word => "word",
    }
}

fn push_key(line: &mut String, name: &str, key: Key) -> Result<(), AllocError>
    ensures { OnOk result
        (string_bytes line.new ≡ string_bytes line.old ++ with_key name.now key) }
{
    let key = key_name(key);
    write!(line, "{name} {key}")
}

/// The key as it stands in a certificate.
fn certificate_key_name(key: CertKey) -> &'static str
    ensures { result.now ≡ certificate_key_name key }
{
    match key {
        CertKey::File => "file",
        CertKey::Kind => "kind",
        CertKey::Anchors => "anchors",
        CertKey::Capped => "capped",
        CertKey::Coords => "coords",
        CertKey::Curves => "curves",
        CertKey::Exponent => "exponent",
        CertKey::Flips => "flips",
        CertKey::High => "high",
        CertKey::Images => "images",
        CertKey::LeftOut => "left_out",
        CertKey::Low => "low",
        CertKey::Matrix => "matrix",
        CertKey::Order => "order",
        CertKey::Paths => "paths",
        CertKey::Power => "power",
        CertKey::Powers => "powers",
        CertKey::Reasons => "reasons",
        CertKey::Tracks => "tracks",
        CertKey::U => "u",
    }
}

fn push_certificate_key(line: &mut String, name: &str, key: CertKey) -> Result<(), AllocError>
    ensures { OnOk result
        (string_bytes line.new ≡ string_bytes line.old ++ with_certificate_key name.now key) }
{
    let key = certificate_key_name(key);
    write!(line, "{name} {key}")
}

// ---- one function for each error

fn push_word(line: &mut String, error: WordError) -> Result<(), AllocError>
    ensures { OnOk result (string_bytes line.new ≡ string_bytes line.old ++ word_text error) }
{
    match error {
        WordError::BadGroup(n) => push_number(line, "BadGroup", n),
        WordError::WordTooLong(n) => push_number(line, "WordTooLong", n),
        WordError::EmptyPart(n) => push_number(line, "EmptyPart", n),
        WordError::UnknownName(n) => push_number(line, "UnknownName", n),
        WordError::BadPower(n) => push_number(line, "BadPower", n),
        WordError::PartsOver(n) => push_wide(line, "PartsOver", n),
        WordError::FlipsOver(n) => push_number(line, "FlipsOver", n),
        WordError::MovesOver(n) => push_number(line, "MovesOver", n),
        WordError::Memory => push_text(line, "Memory"),
    }
}

fn push_fault(line: &mut String, fault: GeneratorFault) -> Result<(), AllocError>
    ensures { OnOk result (string_bytes line.new ≡ string_bytes line.old ++ fault_text fault) }
{
    match fault {
        GeneratorFault::MissingKey(key) => push_key(line, "MissingKey", key),
        GeneratorFault::BadShape(key) => push_key(line, "BadShape", key),
        GeneratorFault::BadName => push_text(line, "BadName"),
        GeneratorFault::SameName => push_text(line, "SameName"),
        GeneratorFault::TooManyFlips(n) => push_number(line, "TooManyFlips", n),
        GeneratorFault::NotEdge(n) => push_number(line, "NotEdge", n),
        GeneratorFault::NotFlippable(n) => push_number(line, "NotFlippable", n),
        GeneratorFault::WrongLength(n) => push_number(line, "WrongLength", n),
        GeneratorFault::NotLabel(n) => push_number(line, "NotLabel", n),
        GeneratorFault::NotBijective(n) => push_number(line, "NotBijective", n),
        GeneratorFault::BreaksTriangle(n) => push_number(line, "BreaksTriangle", n),
        GeneratorFault::OddTriangle(n) => push_number(line, "OddTriangle", n),
        GeneratorFault::LongSide(n) => push_number(line, "LongSide", n),
        GeneratorFault::TotalOver(n) => push_wide(line, "TotalOver", n),
        GeneratorFault::NotOneCurve => push_text(line, "NotOneCurve"),
        GeneratorFault::Peripheral => push_text(line, "Peripheral"),
        GeneratorFault::Stuck(n) => push_wide(line, "Stuck", n),
        GeneratorFault::Word(error) => {
            push_text(line, "word ")?;
            push_word(line, error)
        }
    }
}

fn push_generator(line: &mut String, index: u64, fault: GeneratorFault) -> Result<(), AllocError>
    ensures { OnOk result (string_bytes line.new ≡ string_bytes line.old
        ++ with_number (codes "generator") index ++ codes " " ++ fault_text fault) }
{
    push_number(line, "generator", index)?;
    push_text(line, " ")?;
    push_fault(line, fault)
}

fn push_surface(line: &mut String, error: SurfaceError) -> Result<(), AllocError>
    ensures { OnOk result (string_bytes line.new ≡ string_bytes line.old ++ surface_text error) }
{
    match error {
        SurfaceError::FileTooLong => push_text(line, "FileTooLong"),
        SurfaceError::NotJson => push_text(line, "NotJson"),
        SurfaceError::MissingKey(key) => push_key(line, "MissingKey", key),
        SurfaceError::BadShape(key) => push_key(line, "BadShape", key),
        SurfaceError::NoTriangle => push_text(line, "NoTriangle"),
        SurfaceError::TooManyEdges(n) => push_number(line, "TooManyEdges", n),
        SurfaceError::LabelRange(x) => push_label(line, "LabelRange", x),
        SurfaceError::LabelTwice(x) => push_label(line, "LabelTwice", x),
        SurfaceError::Disconnected(n) => push_number(line, "Disconnected", n),
        SurfaceError::TooManyGenerators(n) => push_number(line, "TooManyGenerators", n),
        SurfaceError::Generator { index, fault } => push_generator(line, index, fault),
        SurfaceError::Memory => push_text(line, "Memory"),
    }
}

fn push_coords(line: &mut String, error: CoordsError) -> Result<(), AllocError>
    ensures { OnOk result (string_bytes line.new ≡ string_bytes line.old ++ coords_text error) }
{
    match error {
        CoordsError::WrongLength(n) => push_number(line, "WrongLength", n),
        CoordsError::TooLarge(n) => push_number(line, "TooLarge", n),
        CoordsError::OddTriangle(n) => push_number(line, "OddTriangle", n),
        CoordsError::LongSide(n) => push_number(line, "LongSide", n),
    }
}

fn push_coordinates(line: &mut String, error: CoordinatesError) -> Result<(), AllocError>
    ensures { OnOk result
        (string_bytes line.new ≡ string_bytes line.old ++ coordinates_text error) }
{
    match error {
        CoordinatesError::BadNumber(n) => push_number(line, "BadNumber", n),
        CoordinatesError::Coords(error) => push_coords(line, error),
    }
}

fn push_overflow(line: &mut String, overflow: OverflowAt) -> Result<(), AllocError>
    ensures { OnOk result
        (string_bytes line.new ≡ string_bytes line.old ++ overflow_text overflow) }
{
    let OverflowAt { flip, edge, value } = overflow;
    write!(line, "flip {flip} edge {edge} value {value}")
}

fn push_twist(line: &mut String, fault: TwistFault) -> Result<(), AllocError>
    ensures { OnOk result (string_bytes line.new ≡ string_bytes line.old ++ twist_text fault) }
{
    match fault {
        TwistFault::TotalOver(n) => push_wide(line, "TotalOver", n),
        TwistFault::NotOneCurve => push_text(line, "NotOneCurve"),
        TwistFault::Peripheral => push_text(line, "Peripheral"),
        TwistFault::Stuck(n) => push_wide(line, "Stuck", n),
    }
}

fn push_certificate(line: &mut String, fault: CertificateFault) -> Result<(), AllocError>
    ensures { OnOk result (string_bytes line.new
        ≡ string_bytes line.old ++ certificate_text fault) }
{
    match fault {
        CertificateFault::FileTooLong => push_text(line, "FileTooLong"),
        CertificateFault::NotJson => push_text(line, "NotJson"),
        CertificateFault::MissingKey(key) => push_certificate_key(line, "MissingKey", key),
        CertificateFault::BadShape(key) => push_certificate_key(line, "BadShape", key),
    }
}

fn push_refusal(line: &mut String, refusal: Refusal) -> Result<(), AllocError>
    ensures { OnOk result (string_bytes line.new ≡ string_bytes line.old ++ refusal_text refusal) }
{
    match refusal {
        Refusal::Usage => push_text(line, "usage"),
        Refusal::Absent => push_text(line, "shelf Absent"),
        Refusal::Failed => push_text(line, "shelf Failed"),
        Refusal::UnknownBuiltin => push_text(line, "surface UnknownBuiltin"),
        Refusal::Surface(error) => {
            push_text(line, "surface ")?;
            push_surface(line, error)
        }
        Refusal::Word(error) => {
            push_text(line, "word ")?;
            push_word(line, error)
        }
        Refusal::Coordinates(error) => {
            push_text(line, "coordinates ")?;
            push_coordinates(line, error)
        }
        Refusal::Twist(fault) => {
            push_text(line, "twist ")?;
            push_twist(line, fault)
        }
        Refusal::Certificate(fault) => {
            push_text(line, "certificate ")?;
            push_certificate(line, fault)
        }
        Refusal::Overflow(overflow) => {
            push_text(line, "overflow ")?;
            push_overflow(line, overflow)
        }
        Refusal::Memory => push_text(line, "memory"),
    }
}

#[cfg(test)]
mod tests {
    use super::*;
    use std::test::Fail;

    #[test]
    fn lines(rt: HostRuntime) -> Result<(), Fail> {
        let product = GeneratorFault::Word(WordError::UnknownName(0));
        let overflow = OverflowAt {
            flip: 7,
            edge: 0,
            value: 1 << 126,
        };
        for (refusal, line) in [
            (Refusal::Usage, "error: usage\n"),
            (Refusal::Absent, "error: shelf Absent\n"),
            (
                Refusal::Surface(SurfaceError::FileTooLong),
                "error: surface FileTooLong\n",
            ),
            (
                Refusal::Surface(SurfaceError::MissingKey(Key::Triangles)),
                "error: surface MissingKey triangles\n",
            ),
            (
                Refusal::Surface(SurfaceError::LabelTwice(-3)),
                "error: surface LabelTwice -3\n",
            ),
            (
                Refusal::Surface(SurfaceError::Generator {
                    index: 1,
                    fault: GeneratorFault::TooManyFlips(4097),
                }),
                "error: surface generator 1 TooManyFlips 4097\n",
            ),
            (
                Refusal::Surface(SurfaceError::Generator {
                    index: 2,
                    fault: product,
                }),
                "error: surface generator 2 word UnknownName 0\n",
            ),
            (
                Refusal::Word(WordError::PartsOver(4097)),
                "error: word PartsOver 4097\n",
            ),
            (
                Refusal::Coordinates(CoordinatesError::BadNumber(2)),
                "error: coordinates BadNumber 2\n",
            ),
            (
                Refusal::Coordinates(CoordinatesError::Coords(CoordsError::LongSide(10))),
                "error: coordinates LongSide 10\n",
            ),
            (
                Refusal::Twist(TwistFault::Stuck(10)),
                "error: twist Stuck 10\n",
            ),
            (
                Refusal::Certificate(CertificateFault::FileTooLong),
                "error: certificate FileTooLong\n",
            ),
            (
                Refusal::Certificate(CertificateFault::MissingKey(CertKey::LeftOut)),
                "error: certificate MissingKey left_out\n",
            ),
            (
                Refusal::Certificate(CertificateFault::BadShape(CertKey::U)),
                "error: certificate BadShape u\n",
            ),
            (
                Refusal::Overflow(overflow),
                "error: overflow flip 7 edge 0 value 85070591730234615865843651857942052864\n",
            ),
            (Refusal::Memory, "error: memory\n"),
        ] {
            let bytes = refusal.line(rt.alloc())?;
            assert_eq!(rt; bytes.as_slice(), line.as_bytes());
        }
        Ok(())
    }
}
