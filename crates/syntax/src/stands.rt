// The theorems about the grammar's machine, each named by a contract.
ghost use Rattle.syntax.specs.Grammar.{Exact, Refused, Decided, Unique};

/// The machine accepts exactly the nets within the limits.
pub fn exact_stands()
    ensures { Exact }
{}

/// Exactly the first token at fault is refused, with the number of its fault.
pub fn refused_stands()
    ensures { Refused }
{}

/// Each list of tokens is accepted or refused.
pub fn decided_stands()
    ensures { Decided }
{}

/// A list of tokens has at most one tree.
pub fn unique_stands()
    ensures { Unique }
{}
