//! Room for the powers of a matrix.
ghost use Rattle.std.specs.Prelude.{◌≡◌, IfOk};

use crate::bits::WORD;
use crate::memory::Memory;
use std::alloc::Global;
use std::marker::Model;

/// Room for the powers of a matrix of a size, so that `Matrix::primitive_exponent` takes no memory.
/// It serves matrices of that size one after another. Contracts see its size.
#[derive(Drop)]
pub struct Scratch {
    pub(crate) size: usize,
    /// How many words a row has.
    pub(crate) width: usize,
    /// The matrix as truth values: whether each entry is positive.
    pub(crate) matrix: Vec<u64>,
    /// The power that was reached, as truth values.
    pub(crate) power: Vec<u64>,
    /// Room for the next one.
    pub(crate) next: Vec<u64>,
}

impl Model for Scratch {
    ghost use Rattle.std.specs.Prelude.{ℕ};
    ghost use Rattle.transition_matrix.specs.inside.Bits.{IsTable};

    ghost Value = { ℕ };

    ghost view = { λ a. a.size };

    ghost invariant = { λ a. IsTable a.size a.width a.matrix.items
        × IsTable a.size a.width a.power.items
        × IsTable a.size a.width a.next.items };
}

impl Scratch {
    /// Room for matrices with n rows.
    pub fn new(alloc: Global, n: usize) -> Result<Scratch, Memory>
        ensures { IfOk result (λ s. s ≡ n) }
    {
        let width = n / WORD + 1;
        let words = n.checked_mul(width).ok_or(Memory)?;
        Ok(Scratch {
            size: n,
            width,
            matrix: vec![in alloc; 0; words]?,
            power: vec![in alloc; 0; words]?,
            next: vec![in alloc; 0; words]?,
        })
    }
}
