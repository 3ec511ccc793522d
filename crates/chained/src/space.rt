ghost use Rattle.std.specs.Prelude.{◌≡◌, ℕ, ◌<◌, min, true, [], ◌∷◌, ◌++◌, length, MatchOption, MatchResult, ◌≢◌};
ghost use Rattle.tuples.specs.Matching.{matches};
ghost use Rattle.rows.specs.Bags.{many, Same, Gains};
ghost use Rattle.rows.specs.Searches.{found, without, visited};
ghost use Rattle.spaces.specs.Spaces.{at, hits, copies};
ghost use Rattle.spaces.specs.Answers.{put_answer};
ghost use Rattle.chained.specs.Links.{TuplesKept, TupleStored, BeyondKept};
ghost use Rattle.chained.specs.Chains.{first_free};
ghost use Rattle.chained.specs.Bounds.{chained_bounded};
ghost use Rattle.chained.specs.ChainedSpaces.{chains_of, chain_of, memory_of, held_in, room_in};

use crate::chains::Chains;
use crate::row::ChainRow;
use spaces::space::{PutRefusal, Space};
use tuples::site::Site;
use tuples::template::Template;
use tuples::tuple::Tuple;

/// A tuple space over chains of rows of the caller's memory.
#[derive(Drop)]
pub struct ChainedSpace<'a> {
    chains: Chains<'a>,
}

impl<'a> ChainedSpace<'a> {
    /// The empty space over rows of the caller's memory, whatever they hold.
    pub fn over(rows: &'a mut [ChainRow]) -> ChainedSpace<'a>
        ensures empty { held_in result ≡ [] }
        ensures room { room_in result ≡ min (length rows.old) 4096 }
        ensures chains { (c : ℕ) → chain_of result c ≡ [] }
        ensures tuples { TuplesKept rows.old (memory_of result) }
        ensures beyond { BeyondKept rows.old (memory_of result) }
        ensures lent { (chains_of result).rows.ghost_name ≡ rows.entry.ghost_name }
    {
        ChainedSpace {
            chains: Chains::over(rows),
        }
    }

    /// The space of what the chains hold.
    pub fn from_chains(chains: Chains<'a>) -> ChainedSpace<'a>
        ensures chains { chains_of result ≡ chains.entry }
    {
        ChainedSpace { chains }
    }

    /// The chains, with what the space holds, so that a space can be made of them again.
    pub fn into_chains(self) -> Chains<'a>
        ensures chains { result ≡ chains_of self.entry }
    {
        let ChainedSpace { chains } = self;
        chains
    }

    /// How many rows a take or a peek looks at: those of the site's chain up to the first that matches, or all of them.
    pub fn visits(&self, site: usize, template: &Template) -> usize
        ensures { result ≡ visited (matches template.now) (chain_of self.now site) }
    {
        // No `map_or`: the check infers no result for a closure that calls the chains.
        let Some(site) = Site::new(site) else {
            return 0;
        };
        self.chains.visits(site, template)
    }
}

// What is kept of the memory stands fact by fact, under the names that callers rely on.
/// Of the tuples at a site that a template matches, the one that was put first is taken and peeked at.
impl<'a> Space for ChainedSpace<'a> {
    ghost held = { λ s. held_in s };

    ghost room = { λ s. room_in s };

    ghost bounded = { λ s. chained_bounded s };

    fn limit(&self) -> usize {
        self.chains.limit()
    }

    fn clear(&mut self)
        ensures empty { held_in self.new ≡ [] }
        ensures fixed { room_in self.new ≡ room_in self.old }
        ensures chains { (c : ℕ) → chain_of self.new c ≡ [] }
        ensures tuples { TuplesKept (memory_of self.old) (memory_of self.new) }
        ensures beyond { BeyondKept (memory_of self.old) (memory_of self.new) }
        ensures lent { (chains_of self.new).rows.ghost_name ≡ (chains_of self.old).rows.ghost_name }
    {
        self.chains.clear();
    }

    fn size(&self) -> usize {
        self.chains.size()
    }

    fn put(&mut self, site: usize, tuple: Tuple) -> Result<(), PutRefusal>
        ensures answer { result ≡ put_answer (length (held_in self.old)) (room_in self.old) site }
        ensures after { MatchResult result (λ _. Gains (at site tuple) (held_in self.old) (held_in self.new)) (λ _. Same (held_in self.old) (held_in self.new)) }
        ensures fixed { room_in self.new ≡ room_in self.old }
        ensures chain { MatchResult result (λ _. chain_of self.new site ≡ chain_of self.old site ++ (tuple ∷ [])) (λ _. chain_of self.new site ≡ chain_of self.old site) }
        ensures others { (c : ℕ) → (c ≢ site) → chain_of self.new c ≡ chain_of self.old c }
        ensures tuples { MatchResult result (λ _. TupleStored (memory_of self.old) (memory_of self.new) (first_free (chains_of self.old)) tuple) (λ _. TuplesKept (memory_of self.old) (memory_of self.new)) }
        ensures beyond { BeyondKept (memory_of self.old) (memory_of self.new) }
        ensures lent { (chains_of self.new).rows.ghost_name ≡ (chains_of self.old).rows.ghost_name }
    {
        let site = Site::new(site).ok_or(PutRefusal::NoSuchSite)?;
        // No `?` and `From`: the refusal is named here, as the contract names it.
        self.chains.put(site, tuple).or(Err(PutRefusal::Full))
    }

    fn take(&mut self, site: usize, template: &Template) -> Option<Tuple>
        ensures after { MatchOption result ((many (hits site template.now) (held_in self.old) ≡ 0) × Same (held_in self.old) (held_in self.new)) (λ t. (matches template.now t ≡ true) × Gains (at site t) (held_in self.new) (held_in self.old)) }
        ensures fixed { room_in self.new ≡ room_in self.old }
        ensures first { result ≡ found (matches template.now) (chain_of self.old site) }
        ensures chain { chain_of self.new site ≡ without (matches template.now) (chain_of self.old site) }
        ensures others { (c : ℕ) → (c ≢ site) → chain_of self.new c ≡ chain_of self.old c }
        ensures tuples { TuplesKept (memory_of self.old) (memory_of self.new) }
        ensures beyond { BeyondKept (memory_of self.old) (memory_of self.new) }
        ensures lent { (chains_of self.new).rows.ghost_name ≡ (chains_of self.old).rows.ghost_name }
    {
        self.chains.take(Site::new(site)?, template)
    }

    fn peek(&self, site: usize, template: &Template) -> Option<Tuple>
        ensures some { MatchOption result (many (hits site template.now) (held_in self.now) ≡ 0) (λ t. (matches template.now t ≡ true) × (0 < copies (held_in self.now) site t)) }
        ensures first { result ≡ found (matches template.now) (chain_of self.now site) }
    {
        self.chains.peek(Site::new(site)?, template)
    }

    fn count(&self, site: usize, template: &Template) -> usize
        ensures hits { result ≡ many (hits site template.now) (held_in self.now) }
        ensures chain { result ≡ many (matches template.now) (chain_of self.now site) }
    {
        // No `map_or`: the check infers no result for a closure that calls the chains.
        let Some(site) = Site::new(site) else {
            return 0;
        };
        self.chains.count(site, template)
    }
}
