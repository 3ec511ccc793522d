ghost use Rattle.rows.specs.Laws.{SameSizes, ToldByCopies};

/// Bags of which every test passes as many have equal sizes.
pub fn same_sizes<R>()
    ensures { SameSizes R }
{}

/// Bags with as many copies of each element agree in every test, so that tests ask no more than copies.
pub fn told_by_copies<R>()
    ensures { ToldByCopies R }
{}
