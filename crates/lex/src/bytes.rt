// What a single byte and a run of bytes are.
ghost use Rattle.std.specs.Prelude.{◌≡◌, ℕ, ◌≤◌, Bool, length};
ghost use Rattle.std.specs.List.{take_while};
ghost use Rattle.lex.specs.Bytes.{is_blank, is_plain, is_mark, reserved, run_kind, is_name, Computes};

use crate::{Keyword, Kind};

/// Whether the byte is a space, a tab, a CR or an LF.
pub(crate) fn is_blank(b: u8) -> bool
    ensures { result ≡ is_blank b }
{
    matches!(b, b' ' | b'\t' | b'\r' | b'\n')
}

/// Whether the byte may stand in a word.
pub(crate) fn is_plain(b: u8) -> bool
    ensures { result ≡ is_plain b }
{
    matches!(b, b' '..=b'~') && b != b'"'
}

/// Whether the byte is a sign of the grammar.
pub(crate) fn is_mark(b: u8) -> bool
    ensures { result ≡ is_mark b }
{
    matches!(
        b,
        b'!' | b'(' | b')' | b',' | b'.' | b':' | b';' | b'=' | b'@' | b'{' | b'|' | b'}'
    )
}

/// The bytes at the front that pass the test.
pub(crate) fn leading<'t, F: Fn(u8) -> bool>(bytes: &'t [u8], test: F) -> &'t [u8]
    requires { F.IsAlwaysCallable test }
    ensures run { (p : ℕ → Bool) → Computes (F.post test) p → result.now ≡ take_while p bytes.now }
    ensures within { length result.now ≤ length bytes.now }
{
    let n = bytes.iter().take_while(|b| test(**b)).count();
    &bytes[..n]
}

// No `TryFrom`: letters that spell no reserved word are no fault, but a name.
/// The reserved word that the letters spell, if any.
pub(crate) fn reserved(w: &[u8]) -> Option<Keyword>
    ensures { result ≡ reserved w.now }
{
    match w {
        b"site" => Some(Keyword::Site),
        b"def" => Some(Keyword::Def),
        b"put" => Some(Keyword::Put),
        b"run" => Some(Keyword::Run),
        b"nil" => Some(Keyword::Nil),
        b"out" => Some(Keyword::Out),
        b"in" => Some(Keyword::In),
        b"read" => Some(Keyword::Read),
        b"eval" => Some(Keyword::Eval),
        b"newloc" => Some(Keyword::Newloc),
        b"num" => Some(Keyword::Num),
        b"word" => Some(Keyword::Word),
        _ => None,
    }
}

// The hint: else its answer is written to memory and read back for each run.
/// The kind of a run of letters and digits; none where it is too long for a name.
#[inline(always)]
pub(crate) fn run_kind(w: &[u8]) -> Option<Kind>
    ensures { result ≡ run_kind w.now }
{
    let name = (w.len() <= 16).then_some(Kind::Name);
    reserved(w).map(Kind::Reserved).or(name)
}

/// Whether a run of letters and digits is a name.
pub(crate) fn is_name(w: &[u8]) -> bool
    ensures { result ≡ is_name w.now }
{
    matches!(run_kind(w), Some(Kind::Name))
}
