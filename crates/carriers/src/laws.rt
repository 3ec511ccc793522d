ghost use Rattle.carriers.specs.Laws.{ToldByParts, ToldByCopies};

/// A letter is its destination, its kind, its row and the places that it holds: letters that agree in these are one.
pub fn told_by_parts()
    ensures { ToldByParts }
{}

/// Carriers that hold as many copies of each letter agree in every test, so that a contract by tests asks no more than copies.
pub fn told_by_copies()
    ensures { ToldByCopies }
{}
