// What is unread of a text.
ghost use Rattle.std.specs.Prelude.{◌≤◌, length};

use lex::Refusal;

/// What is unread of a text: the text, and the place that is read next.
#[derive(Clone, Copy)]
pub(crate) struct Unread<'t> {
    pub(crate) text: &'t [u8],
    pub(crate) at: usize,
    ghost within: { at ≤ length text.now },
}

/// What is unread behind what was read, or the refusal and its place.
pub(crate) type Reading<'t> = Result<Unread<'t>, (Refusal, usize)>;
