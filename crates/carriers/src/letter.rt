ghost use Rattle.std.specs.Prelude.{◌==◌};

use crate::thread_row::ThreadRow;
use rows::row::Row;
use tuples::site::Site;
use tuples::template::Template;
use tuples::tuple::Tuple;

/// A letter: the site that it goes to, and what it says.
#[derive(Clone, Copy, Debug)]
pub struct Letter {
    pub to: Site,
    pub body: Body,
}

/// What a letter says, with the row of the thread that it concerns; goods concern none.
#[derive(Clone, Copy, Debug)]
pub enum Body {
    /// A tuple for the site's space.
    Goods(Tuple),
    /// A thread that comes to the site.
    Mover(ThreadRow),
    /// A thread's request to withdraw a tuple that the template matches.
    InRequest(ThreadRow, Template),
    /// A thread's request to read a tuple that the template matches.
    ReadRequest(ThreadRow, Template),
    /// The tuple that a thread's request found.
    Reply(ThreadRow, Tuple),
}

/// The question of a letter is a site: does the letter go there?
impl Row for Letter {
    type Question = Site;

    ghost hit = { λ x q. x.to.number == q.number };

    fn answers(&self, question: &Site) -> bool {
        self.to == *question
    }
}
