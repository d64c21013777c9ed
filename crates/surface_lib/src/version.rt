//! The version of a surface file.

/// The version of a surface file.
#[derive(Clone, Copy, Debug, PartialEq, Eq)]
pub(crate) enum Version {
    /// Surfaces are connected, and no generator is a product.
    One,
    /// Surfaces may have several components, and generators may be products.
    Two,
}
