ghost use Rattle.tuples.specs.Laws.{ToldByPlaces, MatchingDecided, TestsEquality};
ghost use Rattle.tuples.specs.Tuples.{same_tuple, same_template};
ghost use Rattle.tuples.specs.Values.{same_field, same_place};

use crate::field::Field;
use crate::place::Place;
use crate::template::Template;
use crate::tuple::Tuple;

/// A tuple is its fields and a template its places: values that agree in these are one.
pub fn told_by_places()
    ensures { ToldByPlaces }
{}

/// The test by which code matches decides what matching means: equally many places that agree one by one.
pub fn matching_decided()
    ensures { MatchingDecided }
{}

/// Fields, places, tuples and templates are equal by `==` exactly if they are the same value; each `==` is a test that is named.
pub fn equality_decided()
    ensures fields { TestsEquality ⟦<Field as PartialEq>⟧.eq same_field }
    ensures places { TestsEquality ⟦<Place as PartialEq>⟧.eq same_place }
    ensures tuples { TestsEquality ⟦<Tuple as PartialEq>⟧.eq same_tuple }
    ensures templates { TestsEquality ⟦<Template as PartialEq>⟧.eq same_template }
{}
