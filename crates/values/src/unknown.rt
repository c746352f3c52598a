// The error of a conversion from a number.

/// The number itself, which stands for nothing of what was asked for.
#[derive(Clone, Copy, PartialEq, Eq, Debug)]
pub struct Unknown<T>(pub T);
