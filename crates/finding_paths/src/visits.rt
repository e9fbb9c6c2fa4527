//! The visits of a search, in their order.

/// A visit of an instruction.
#[derive(Clone, Copy, Debug, PartialEq, Eq)]
pub(crate) struct Visit {
    /// The index of the instruction.
    pub(crate) index: u32,
    /// The number of the visit that led here; the first visit has its own, 0.
    pub(crate) from: usize,
}
