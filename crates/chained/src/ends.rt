/// How many rows of a memory are linked at most.
pub(crate) const MOST_ROWS: usize = 4096;

/// How many chains there are: one for each site, and one of free rows.
pub(crate) const CHAINS: usize = 33;

/// The chain of free rows, behind those of the sites.
pub(crate) const FREE: usize = 32;

// Numbers of rows, as in the rows themselves. They become places by `as`: the check proves that it loses nothing.
// The count is asked for anyway and tells a chain without rows; an `Option` would tell it twice.
/// Where a chain begins and ends, and how many rows it has.
#[derive(Clone, Copy, Default)]
pub struct Ends {
    pub first: u16,
    pub last: u16,
    pub many: u16,
}
