// What a draw within a limit comes to.

/// What a Laplace or Gaussian draw comes to.
#[derive(Clone, Copy, Debug, PartialEq, Eq)]
pub enum Draw {
    /// The number drawn.
    Value(i64),
    /// The words end before a number or a magnitude past the limit.
    OutOfWords,
    /// The magnitude of a Laplace number, U + t * V, passed 2^30, with this value.
    TooLarge(i64),
}

// Why there is no number.
#[derive(Clone, Copy, Debug, PartialEq, Eq)]
pub(crate) enum Stop {
    OutOfWords,
    TooLarge(i64),
}
