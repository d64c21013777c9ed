//! Why a file holds no surface.
use crate::error::WordError;
use ideal_tri::Memory;

/// A place of a surface file: the whole file, a generator, or the value at a key.
#[derive(Clone, Copy, Debug, PartialEq, Eq)]
pub enum Key {
    /// The file itself.
    File,
    /// The text `flipper-surface`.
    Format,
    /// 1 or 2.
    Version,
    /// The name of the surface, or of a generator.
    Name,
    /// The triples of labels.
    Triangles,
    /// The list of generators.
    Generators,
    /// One generator.
    Generator,
    /// The edges that a generator flips.
    Flips,
    /// The images of the labels under the relabelling behind the flips.
    Relabel,
    /// The vector of the curve of a twist.
    Twist,
    /// The hand of a twist, `plus` or `minus`.
    Hand,
    /// The word of a product.
    Word,
}

/// Why an entry of the list of generators is no generator: the first test that fails, in the order
/// of the variants as far as they belong to the generator's form.
#[derive(Clone, Copy, Debug, PartialEq, Eq)]
pub enum GeneratorFault {
    /// The object has no such key.
    MissingKey(Key),
    /// The entry, or its value at the key, has another shape.
    BadShape(Key),
    /// The name is no text of a lower-case letter and at most 15 lower-case letters, digits or `_`.
    BadName,
    /// An earlier generator has the name.
    SameName,
    /// So many flips: above 4,096.
    TooManyFlips(u64),
    /// The flip of this index names no edge.
    NotEdge(u64),
    /// The edge of the flip of this index has the same triangle on both sides.
    NotFlippable(u64),
    /// So many images, or coordinates, where there is one for each edge.
    WrongLength(u64),
    /// The image of this index is no label.
    NotLabel(u64),
    /// This edge is not hit once by the images.
    NotBijective(u64),
    /// The images of this triangle's labels are no triangle.
    BreaksTriangle(u64),
    /// The sides of this triangle have an odd sum.
    OddTriangle(u64),
    /// One side of this triangle is longer than the other two together.
    LongSide(u64),
    /// The coordinates of a twist's curve have this sum: above 4,096.
    TotalOver(u128),
    /// The vector of a twist is not one curve.
    NotOneCurve,
    /// The curve of a twist runs round a vertex.
    Peripheral,
    /// The descent of a twist's curve ended with this sum, above 2.
    Stuck(u128),
    /// The word of a product has this refusal, which is never `Memory`.
    Word(WordError),
}

/// Why a file holds no surface: the first test that fails, in the order of the variants.
#[derive(Clone, Copy, Debug, PartialEq, Eq)]
pub enum SurfaceError {
    /// More than 1,048,576 bytes.
    FileTooLong,
    /// The bytes are no JSON text, nested at most 127 deep.
    NotJson,
    /// The root has no such key.
    MissingKey(Key),
    /// The root, or its value at the key, has another shape.
    BadShape(Key),
    /// No triangle is listed.
    NoTriangle,
    /// So many edges: above 48.
    TooManyEdges(u64),
    /// This label is out of range.
    LabelRange(i32),
    /// This label stands a second time.
    LabelTwice(i32),
    /// The triangle of this index is not reached from the first; in version 1 alone.
    Disconnected(u64),
    /// So many generators: above 64.
    TooManyGenerators(u64),
    /// The generator of this index has a fault.
    Generator { index: u64, fault: GeneratorFault },
    /// No memory was found.
    Memory,
}

impl From<Memory> for SurfaceError {
    ghost use Rattle.std.specs.Prelude.{◌≡◌};
    ghost use Rattle.surface_lib.specs.declared.surface_error.SurfaceError.TheVariants.{Memory};

    ghost from_gives = { λ _ error. error ≡ Memory };

    fn from(_: Memory) -> SurfaceError {
        SurfaceError::Memory
    }
}
