/// The least size of a number that is too large.
pub(crate) const TOO_LARGE: u64 = 1 << 53;

/// How many elements the value of an operator, a function or a bracket has at most.
pub(crate) const MOST_PARTS: u64 = 4096;

/// How deep its lists are in one another at most.
pub(crate) const MOST_NESTING: u64 = 64;

/// The least number of elements that a bounded value doesn't have.
pub(crate) const TOO_MANY_PARTS: u64 = 1 << 20;
