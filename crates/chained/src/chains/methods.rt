ghost use Rattle.std.specs.Prelude.{◌≡◌, ℕ, ◌<◌, ◌≤◌, min, [], ◌∷◌, ◌++◌, length, MatchResult, is_ok, ◌≢◌, nat_lt};
ghost use Rattle.std.specs.Option.{option_map};
ghost use Rattle.tuples.specs.Matching.{matches};
ghost use Rattle.rows.specs.Bags.{many};
ghost use Rattle.rows.specs.Searches.{found, without, visited};
ghost use Rattle.chained.specs.Links.{rows_of, numbered, total, TuplesKept, TupleStored, BeyondKept, Kept};
ghost use Rattle.chained.specs.Steps.{matches_at};
ghost use Rattle.chained.specs.Chains.{memory, first_free, bag, chain_in, rows_in, SameMemory};

use crate::chain::Chain;
use crate::chains::Chains;
use crate::ends::{FREE, MOST_ROWS};
use crate::free::freed;
use crate::links::transfer;
use crate::row::ChainRow;
use rows::tray::Full;
use tuples::site::Site;
use tuples::template::Template;
use tuples::tuple::Tuple;

// A site and a template apart, as the calls of a space give them: `Wanted` would hold a copy of the template.
impl<'a> Chains<'a> {
    /// Links the rows of the caller's memory, whatever they hold, into the chain of free rows.
    pub fn over(rows: &'a mut [ChainRow]) -> Chains<'a>
        ensures empty { bag result ≡ [] }
        ensures chains { (c : ℕ) → c < 32 → chain_in result c ≡ [] }
        ensures room { rows_in result ≡ min (length rows.old) 4096 }
        ensures tuples { TuplesKept rows.old (memory result) }
        ensures beyond { BeyondKept rows.old (memory result) }
        ensures lent { result.rows.ghost_name ≡ rows.entry.ghost_name }
    {
        let ends = freed(rows);
        Chains {
            rows,
            ends,
            used: 0,
        }
    }

    /// How many rows the chains use.
    pub(crate) fn limit(&self) -> usize
        ensures { result ≡ rows_in self.now }
    {
        self.rows.len().min(MOST_ROWS)
    }

    /// How many rows lie in the chains of the sites.
    pub(crate) fn size(&self) -> usize
        ensures { result ≡ total 32 (λ c. length (chain_in self.now c)) }
    {
        self.used
    }

    /// Puts all rows into the chain of free rows.
    pub(crate) fn clear(&mut self)
        ensures empty { (c : ℕ) → c < 32 → chain_in self.new c ≡ [] }
        ensures kept { Kept (memory self.old) (memory self.new) }
        ensures memory { SameMemory self.old self.new }
    {
        let Chains { rows, ends, used } = self;
        *ends = freed(rows);
        *used = 0;
    }

    /// Lets the first free row hold the tuple and puts it at the end of the site's chain; refuses where no row is free.
    pub(crate) fn put(&mut self, site: Site, tuple: Tuple) -> Result<(), Full>
        ensures took { is_ok result ≡ nat_lt (total 32 (λ c. length (chain_in self.old c))) (rows_in self.old) }
        ensures here { MatchResult result (λ _. chain_in self.new site.number ≡ chain_in self.old site.number ++ (tuple ∷ [])) (λ _. chain_in self.new site.number ≡ chain_in self.old site.number) }
        ensures rest { (c : ℕ) → c < 32 → (c ≢ site.number) → chain_in self.new c ≡ chain_in self.old c }
        ensures tuples { MatchResult result (λ _. TupleStored (memory self.old) (memory self.new) (first_free self.old) tuple) (λ _. TuplesKept (memory self.old) (memory self.new)) }
        ensures beyond { BeyondKept (memory self.old) (memory self.new) }
        ensures memory { SameMemory self.old self.new }
    {
        let free = self.ends[FREE];
        if free.many == 0 {
            return Err(Full);
        }
        let Chains { rows, ends, used } = self;
        transfer(rows, ends, FREE, free.first, site.number());
        rows[free.first as usize].tuple = tuple;
        *used += 1;
        Ok(())
    }

    /// Takes the first row of the site's chain whose tuple the template matches out, and puts it at the end of the chain of free rows.
    pub(crate) fn take(&mut self, site: Site, template: &Template) -> Option<Tuple>
        ensures got { result ≡ found (matches template.now) (chain_in self.old site.number) }
        ensures here { chain_in self.new site.number ≡ without (matches template.now) (chain_in self.old site.number) }
        ensures rest { (c : ℕ) → c < 32 → (c ≢ site.number) → chain_in self.new c ≡ chain_in self.old c }
        ensures kept { Kept (memory self.old) (memory self.new) }
        ensures memory { SameMemory self.old self.new }
    {
        let (at, tuple) = self.find(site, template)?;
        let tuple = *tuple;
        let Chains { rows, ends, used } = self;
        transfer(rows, ends, site.number(), at, FREE);
        *used -= 1;
        Some(tuple)
    }

    /// The tuple of the first row of the site's chain that the template matches.
    pub(crate) fn peek(&self, site: Site, template: &Template) -> Option<Tuple>
        ensures { result ≡ found (matches template.now) (chain_in self.now site.number) }
    {
        self.find(site, template).map(|(_, tuple)| *tuple)
    }

    // As the search in `rows` counts and looks, but along a chain and not a slice.
    /// How many tuples of the site's chain the template matches.
    pub(crate) fn count(&self, site: Site, template: &Template) -> usize
        ensures { result ≡ many (matches template.now) (chain_in self.now site.number) }
    {
        self.chain(site)
            .filter(|(_, tuple)| template.matches(tuple))
            .count()
    }

    /// How many rows of the site's chain a take or a peek looks at: those up to the first that matches, or all of them.
    pub(crate) fn visits(&self, site: Site, template: &Template) -> usize
        ensures { result ≡ visited (matches template.now) (chain_in self.now site.number) }
    {
        let all = self.ends[site.number()].many as usize;
        self.chain(site)
            .position(|(_, tuple)| template.matches(tuple))
            .map_or(all, |at| at + 1)
    }

    /// The first row of the site's chain whose tuple the template matches, with that tuple.
    fn find(&self, site: Site, template: &Template) -> Option<(u16, &Tuple)>
        ensures place { option_map (λ x. x.0) result ≡ found (matches_at (memory self.now) template.now) (rows_of (memory self.now) self.now.ends site.number) }
        ensures tuple { option_map (λ x. x.1.now) result ≡ found (matches template.now) (chain_in self.now site.number) }
    {
        self.chain(site).find(|(_, tuple)| template.matches(tuple))
    }

    /// The site's chain, from its first row on.
    fn chain(&self, site: Site) -> Chain<'_>
        ensures rows { result ≡ numbered (memory self.now) (rows_of (memory self.now) self.now.ends site.number) }
        ensures few { length result ≤ 4096 }
    {
        Chain::between(self.rows, self.ends[site.number()])
    }
}
