ghost use Rattle.chained.specs.Laws.{ChainsInOrder};

/// Every chain ends, no two chains share a row, and together they have each of the linked rows exactly once.
pub fn chains_in_order()
    ensures { ChainsInOrder }
{}
