use tuples::numbered::Numbered;

/// The row of a thread, told by its number: one of 64.
pub type ThreadRow = Numbered<64>;
