//! What bytes begin with.

/// What a view begins with.
#[derive(Debug, Drop)]
pub enum Prototype {
    /// No bytes.
    Null,
    /// A string, with its length in bytes.
    Data(usize),
    /// A list, with its number of items.
    List(usize),
}
