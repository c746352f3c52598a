// The two rows of cells of a host.

/// Variables and bindings are cells alike; each has its number in its row.
#[derive(Clone, Copy, PartialEq, Eq, Debug)]
pub enum Row {
    Variables,
    Bindings,
}

/// The most variables that a host has, and the most bindings.
pub const MAX_CELLS: usize = 1024;
