// The token that stands at a place of the text.
ghost use Rattle.std.specs.Prelude.{◌≡◌, ◌+◌, ◌^◌, ◌<◌, ◌≤◌, true, false, Some, length, slice_index};
ghost use Rattle.std.specs.Char.{is_ascii_alphabetic, is_ascii_digit};
ghost use Rattle.lex.specs.Cut.{Cut, Cuts, Tries};
ghost use Rattle.lex.specs.Next.{Next, is_end};
ghost use Rattle.lex.specs.Tokens.{tok, run_tok, number_tok, variable_tok, word_tok, sign_tok, tok_at, signs, is_variable, is_word, TokensEnd};

use crate::bytes::{is_blank, is_mark, is_name, is_plain, leading, run_kind};
use crate::number::number;
use crate::refusal::Refusal;
use crate::{Kind, Token};

// What is left of a text, and where it starts there.
#[derive(Clone, Copy)]
struct Rest<'t> {
    bytes: &'t [u8],
    start: usize,
    ghost some: { 0 < length bytes.now },
    ghost fits: { start + length bytes.now < 2 ^ 64 },
}

/// The first token from the place on, or the text's end; where the grammar allows such a token
/// nowhere, that refusal and its start.
pub fn next_token<'t>(text: &'t [u8], at: usize) -> Result<Token<'t>, (Refusal, usize)>
    ensures { Next text.now at result }
{
    let from = at.min(text.len());
    let start = from + leading(&text[from..], is_blank).len();
    if start == text.len() {
        return Ok(Token {
            kind: Kind::End,
            text: b"",
            start,
            end: start,
        });
    }
    let bytes = &text[start..];
    Rest { bytes, start }
        .first_token()
        .ok_or((Refusal::NotAllowed, start))
}

// Where a form of token may be missing, `if` and no `then`: a closure that makes a token gets no proof.
impl<'t> Rest<'t> {
    // The token that it begins with.
    #[tactic(auto, unfolding(crate::specs::Tokens::tok_at))]
    fn first_token(self) -> Option<Token<'t>>
        ensures { Cuts self.entry.bytes.now (tok_at self.entry.start self.entry.bytes.now) result }
    {
        // Letters and digits by guards, so that they are asked for first: with ranges in their place
        // the compiled code asks for the quote, `$` and `-` before them.
        let first = self.bytes[0];
        match first {
            b if b.is_ascii_alphabetic() => self.run(),
            b if b.is_ascii_digit() => self.number(false),
            b'-' => self.number(true),
            b'$' => self.variable(),
            b'"' => self.word(),
            b => self.sign(b),
        }
    }

    // The token of its first bytes, so many, with a part of the text.
    fn token(self, kind: Kind, text: &'t [u8], size: usize) -> Token<'t>
        requires more { is_end kind ≡ false }
        requires moves { 0 < size }
        requires within { size ≤ length self.bytes.now }
        ensures { Cut self.entry.bytes.now (tok self.entry.start (Some kind) text.now size) result }
    {
        Token {
            kind,
            text,
            start: self.start,
            end: self.start + size,
        }
    }

    // A run of letters and digits, if it is not too long for a name.
    fn run(self) -> Option<Token<'t>>
        requires { is_ascii_alphabetic (slice_index self.bytes.now 0) ≡ true }
        ensures { Cuts self.entry.bytes.now (run_tok self.entry.start self.entry.bytes.now) result }
    {
        let text = leading(self.bytes, |b| b.is_ascii_alphanumeric());
        let kind = run_kind(text)?;
        Some(self.token(kind, text, text.len()))
    }

    // A number, if a digit stands behind its sign.
    fn number(self, minus: bool) -> Option<Token<'t>>
        ensures { Tries self.entry.bytes.now
            (is_ascii_digit (slice_index self.entry.bytes.now (signs minus)))
            (number_tok self.entry.start minus self.entry.bytes.now)
            result }
    {
        let signs = usize::from(minus);
        let digits = leading(&self.bytes[signs..], |b| b.is_ascii_digit());
        if digits.is_empty() {
            return None;
        }
        let kind = Kind::Number(number(minus, digits));
        Some(self.token(kind, b"", signs + digits.len()))
    }

    // A variable, if a name stands behind its `$`.
    fn variable(self) -> Option<Token<'t>>
        requires { slice_index self.bytes.now 0 ≡ 36 }
        ensures { Tries self.entry.bytes.now
            (is_variable self.entry.bytes.now)
            (variable_tok self.entry.start self.entry.bytes.now)
            result }
    {
        // The first byte before the run: a run that begins with a digit may be long, and names nothing.
        if !self.bytes.get(1).is_some_and(u8::is_ascii_alphabetic) {
            return None;
        }
        let name = leading(&self.bytes[1..], |b| b.is_ascii_alphanumeric());
        if is_name(name) {
            Some(self.token(Kind::Variable, name, 1 + name.len()))
        } else {
            None
        }
    }

    // A word, if at most 16 plain bytes stand between its quotes.
    fn word(self) -> Option<Token<'t>>
        requires { slice_index self.bytes.now 0 ≡ 34 }
        ensures { Tries self.entry.bytes.now
            (is_word self.entry.bytes.now)
            (word_tok self.entry.start self.entry.bytes.now)
            result }
    {
        let text = leading(&self.bytes[1..], is_plain);
        if self.bytes.get(1 + text.len()) == Some(&b'"') && text.len() <= 16 {
            Some(self.token(Kind::Word, text, 2 + text.len()))
        } else {
            None
        }
    }

    // A sign of the grammar, if the byte is one.
    fn sign(self, b: u8) -> Option<Token<'t>>
        ensures { Cuts self.entry.bytes.now (sign_tok self.entry.start b) result }
    {
        if is_mark(b) {
            Some(self.token(Kind::Sign(b), b"", 1))
        } else {
            None
        }
    }
}

/// The tokens of every text end with the text's end, at its length, and it stands nowhere else.
pub fn tokens_end()
    ensures { TokensEnd }
{}
