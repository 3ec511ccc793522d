ghost use Rattle.std.specs.Prelude.{◌≡◌, ◌+◌, min, is_some};
ghost use Rattle.rows.specs.Bags.{once, many};
ghost use Rattle.spaces.specs.Spaces.{hits};

use spaces::space::Space;
use tuples::template::Template;
use tuples::tuple::Tuple;

/// Two agents ask for a claim, one after the other: each gets a copy of its own while there are any, so one copy reaches one agent.
pub fn contend<S: Space>(
    space: &mut S,
    site: usize,
    template: &Template,
) -> (Option<Tuple>, Option<Tuple>)
    ensures shares { once (is_some result.0) + once (is_some result.1) ≡ min 2 (many (hits site template.now) (S.held space.old)) }
    ensures left { once (is_some result.0) + once (is_some result.1) + many (hits site template.now) (S.held space.new) ≡ many (hits site template.now) (S.held space.old) }
{
    let first = space.take(site, template);
    let second = space.take(site, template);
    (first, second)
}
