//! What is proved of the definitions that the contracts cite. The functions do nothing: their
//! contracts are the laws.
ghost use Rattle.transition_matrix.specs.MatrixLaws.{MatrixLaws, SumLaws, ColumnSumLaws};
ghost use Rattle.transition_matrix.specs.MatrixLaws.{GrowthLaws};

/// What is proved of sums, of matrices and their powers, and of their column sums.
pub fn matrix_laws()
    ensures powers { MatrixLaws }
    ensures sums { SumLaws }
    ensures column_sums { ColumnSumLaws }
{}

/// What bounds of the growth of a matrix say of columns under its powers.
pub fn growth_laws()
    ensures { GrowthLaws }
{}
