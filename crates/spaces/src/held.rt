ghost use Rattle.std.specs.Prelude.{◌≡◌, ◌&&◌, ◌==◌};
ghost use Rattle.tuples.specs.Matching.{matches};

use rows::row::Row;
use tuples::site::Site;
use tuples::template::Template;
use tuples::tuple::Tuple;

/// A row of memory that holds a tuple at a site.
#[derive(Clone, Copy)]
pub struct Held {
    pub site: Site,
    pub tuple: Tuple,
}

/// The question of a row that holds a tuple: does it lie at the site, and does the template match it?
#[derive(Clone, Copy)]
pub struct Wanted {
    pub site: Site,
    pub template: Template,
}

impl Row for Held {
    type Question = Wanted;

    ghost hit = { λ x q. x.site.number == q.site.number && matches q.template x.tuple };

    fn answers(&self, question: &Wanted) -> bool {
        self.site == question.site && question.template.matches(&self.tuple)
    }
}
