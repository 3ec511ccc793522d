ghost use Rattle.std.specs.Prelude.{map, ◌≡◌, ◌≤◌, MatchOption};
ghost use Rattle.rows.specs.Trays.{room as rowsFor, listed};
ghost use Rattle.spaces.specs.TraySpaces.{located, tray_bounded};

use crate::held::{Held, Wanted};
use crate::space::{PutRefusal, Space};
use rows::store::Store;
use rows::tray::Tray;
use tuples::site::Site;
use tuples::template::Template;
use tuples::tuple::Tuple;

/// A tray of tuples, over at most 4,096 rows of the caller's memory.
pub type HeldTray<'a> = Tray<'a, Held, 4096>;

// `limit`, `clear` and `size` pass on to the store, as a carrier's do: a space and a carrier are two traits.
impl<'a> Space for Tray<'a, Held, 4096> {
    ghost held = { λ s. map located (listed s) };

    ghost room = { λ s. rowsFor s };

    ghost bounded = { λ s. tray_bounded s };

    fn limit(&self) -> usize {
        Store::limit(self)
    }

    fn clear(&mut self) {
        Store::clear(self);
    }

    fn size(&self) -> usize {
        Store::len(self)
    }

    fn put(&mut self, site: usize, tuple: Tuple) -> Result<(), PutRefusal> {
        let to = Site::new(site).ok_or(PutRefusal::NoSuchSite)?;
        Store::add(self, Held { site: to, tuple })?;
        Ok(())
    }

    fn take(&mut self, site: usize, template: &Template) -> Option<Tuple> {
        Store::take(self, &wanted(site, template)?).map(|row| row.tuple)
    }

    fn peek(&self, site: usize, template: &Template) -> Option<Tuple> {
        Tray::peek(self, &wanted(site, template)?).map(|row| row.tuple)
    }

    fn count(&self, site: usize, template: &Template) -> usize {
        // No `map_or`: the check infers no result for a closure that calls the tray.
        let Some(question) = wanted(site, template) else {
            return 0;
        };
        Tray::count(self, &question)
    }
}

/// The question for a tuple that the template matches at the site, or nothing where there is no such site.
fn wanted(site: usize, template: &Template) -> Option<Wanted>
    ensures { MatchOption result (32 ≤ site) (λ q. (q.site.number ≡ site) × (q.template ≡ template.now)) }
{
    Some(Wanted {
        site: Site::new(site)?,
        template: *template,
    })
}
