ghost use Rattle.claims.specs.Claims.{Free, Claim, Sought};

use crate::contend::contend;
use spaces::space::{PutRefusal, Space};
use tuples::field::{Field, FieldType};
use tuples::place::Place;
use tuples::template::Template;
use tuples::tuple::Tuple;
use tuples::word::Word;

/// The site where claims lie until an agent withdraws them.
const REGISTRY: usize = 0;

/// The number of the word "free".
const FREE: usize = 0;

/// Hands out claims on three sheets, lets agents contend for one, and gives it back.
pub(crate) fn run<S: Space>(rt: &impl Print, space: &mut S) -> anyhow::Result<()> {
    space.clear();
    println!(rt;
        "a space with room for {}, holding {}",
        space.limit(),
        space.size()
    )?;
    for sheet in 7..10 {
        let claim = claim(sheet);
        offer(rt, space, REGISTRY, claim)?;
    }
    let seven = Place::Actual(Field::Num(7));
    let wanted = template(seven);
    println!(rt; "{wanted} matches {} claim", space.count(REGISTRY, &wanted))?;
    let (first, second) = contend(space, REGISTRY, &wanted);
    tell(rt, "the first agent", first)?;
    tell(rt, "the second agent", second)?;
    let any = template(Place::Formal(FieldType::Num));
    tell(rt, "a reader of any claim", space.peek(REGISTRY, &any))?;
    fill(rt, space)?;
    give_back(rt, space, &any, first)
}

/// The claim on a sheet: the word "free" and the sheet's number.
fn claim(sheet: i32) -> Tuple
    ensures { Claim sheet result }
{
    Tuple::new(&[free(), Field::Num(sheet)]).unwrap()
}

/// The template of claims whose second place is as given.
fn template(sheet: Place) -> Template
    ensures { Sought sheet result }
{
    Template::new(&[Place::Actual(free()), sheet]).unwrap()
}

/// The word "free".
fn free() -> Field
    ensures { Free result }
{
    Field::Word(Word::new(FREE).unwrap())
}

fn offer<S: Space>(
    rt: &impl Print,
    space: &mut S,
    site: usize,
    claim: Tuple,
) -> anyhow::Result<()> {
    // In words of its own, which name the site.
    match space.put(site, claim) {
        Ok(()) => println!(rt; "{claim} is offered at site {site}")?,
        Err(PutRefusal::Full) => println!(rt; "{claim} is refused: the space is full")?,
        Err(PutRefusal::NoSuchSite) => println!(rt; "{claim} is refused: there is no site {site}")?,
    }
    Ok(())
}

fn tell(rt: &impl Print, who: &str, got: Option<Tuple>) -> anyhow::Result<()> {
    match got {
        Some(claim) => println!(rt; "{who} gets {claim}")?,
        None => println!(rt; "{who} finds nothing")?,
    }
    Ok(())
}

/// Offers claims until one is refused, and one at a site that there cannot be.
fn fill<S: Space>(rt: &impl Print, space: &mut S) -> anyhow::Result<()> {
    for sheet in 20..23 {
        let claim = claim(sheet);
        offer(rt, space, REGISTRY, claim)?;
    }
    let claim = claim(23);
    offer(rt, space, 32, claim)
}

/// Makes room for a claim that was taken, and offers it again.
fn give_back<S: Space>(
    rt: &impl Print,
    space: &mut S,
    any: &Template,
    taken: Option<Tuple>,
) -> anyhow::Result<()> {
    tell(rt, "an agent that takes any", space.take(REGISTRY, any))?;
    let Some(claim) = taken else {
        return Ok(());
    };
    offer(rt, space, REGISTRY, claim)?;
    println!(rt;
        "{any} matches {} claims, in a space holding {}",
        space.count(REGISTRY, any),
        space.size()
    )?;
    Ok(())
}
