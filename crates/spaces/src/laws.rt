ghost use Rattle.spaces.specs.Laws.{ToldByCopies};

/// Spaces that hold as many copies of each tuple at each site agree in every test, so that a contract by tests asks no more than copies.
pub fn told_by_copies()
    ensures { ToldByCopies }
{}
