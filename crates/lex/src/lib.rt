// The tokeniser: it cuts a text into tokens, one at each call.
#![tactic(auto)]

mod bytes;
mod cut;
mod number;
mod refusal;

pub use cut::{next_token, tokens_end};
pub use refusal::Refusal;

/// A reserved word, which names nothing.
#[derive(Clone, Copy, Debug, PartialEq, Eq)]
pub enum Keyword {
    Site,
    Def,
    Put,
    Run,
    Nil,
    Out,
    In,
    Read,
    Eval,
    Newloc,
    Num,
    Word,
}

/// What a token is.
#[derive(Clone, Copy, Debug, PartialEq, Eq)]
pub enum Kind {
    End,
    Reserved(Keyword),
    Name,
    Variable,
    Word,
    Number(Option<i32>),
    Sign(u8),
}

// The text stands beside the kind, and not in it, so that kinds are compared without it.
/// A token with its place: `text` is the part of the caller's text that is the name, the variable's
/// name, the word between its quotes or the reserved word, and empty for other tokens.
#[derive(Clone, Copy, Debug)]
pub struct Token<'t> {
    pub kind: Kind,
    pub text: &'t [u8],
    pub start: usize,
    pub end: usize,
}
