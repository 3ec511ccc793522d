// Taking a token, and which token stands for what.
ghost use Rattle.std.specs.Prelude.{◌≡◌, [], ◌∷◌};
ghost use Rattle.syntax.specs.Machine.{fits, is_field, starts, leaf};
ghost use Rattle.grammar.specs.Reads.{Takes, Accepts, Reads};

use crate::unread::{Reading, Unread};
use lex::{Keyword, Kind, Refusal, Token, next_token};
use syntax::{Entries, Terminal};

// Whether a field may be this token; two sorts of entries ask it, and the test would stand twice.
fn is_field(kind: Kind) -> bool
    ensures { result ≡ is_field kind }
{
    matches!(
        kind,
        Kind::Name | Kind::Variable | Kind::Word | Kind::Number(_)
    )
}

// Whether the token stands for the terminal.
fn stands_for(kind: Kind, terminal: Terminal) -> bool
    ensures { result ≡ fits terminal kind }
{
    match terminal {
        Terminal::Sign(b) => kind == Kind::Sign(b),
        Terminal::Name => kind == Kind::Name,
        Terminal::Variable => kind == Kind::Variable,
        Terminal::TypeWord => matches!(
            kind,
            Kind::Reserved(Keyword::Num | Keyword::Word | Keyword::Site)
        ),
        Terminal::Target => matches!(kind, Kind::Name | Kind::Variable),
    }
}

/// Whether such an entry may begin with the token.
pub(crate) fn begins(kind: Kind, entries: Entries) -> bool
    ensures { result ≡ starts entries kind }
{
    match entries {
        Entries::Fields => is_field(kind),
        Entries::Places => kind == Kind::Sign(b'!') || is_field(kind),
        Entries::Params => kind == Kind::Variable,
    }
}

impl<'t> Unread<'t> {
    // The hint: else the pair is written to memory and read back at each token.
    /// Takes the next token, and gives what is unread behind it.
    #[inline(always)]
    pub(crate) fn token(self) -> Result<(Token<'t>, Unread<'t>), (Refusal, usize)>
        ensures { Takes self.entry result }
    {
        let token = next_token(self.text, self.at)?;
        let rest = Unread {
            text: self.text,
            at: token.end,
        };
        Ok((token, rest))
    }

    // The hint: else what is unread is copied through memory at each step of the loops.
    /// What is unread behind the next token, where it is of this kind.
    #[inline(always)]
    pub(crate) fn accept(self, kind: Kind) -> Result<Option<Unread<'t>>, (Refusal, usize)>
        ensures { Accepts kind self.entry result }
    {
        let (token, rest) = self.token()?;
        Ok((token.kind == kind).then_some(rest))
    }

    /// Reads the terminal.
    pub(crate) fn expect(self, terminal: Terminal) -> Reading<'t>
        ensures { Reads (leaf terminal ∷ []) self.entry result }
    {
        let (token, rest) = self.token()?;
        if stands_for(token.kind, terminal) {
            Ok(rest)
        } else {
            Err((Refusal::NotAllowed, token.start))
        }
    }
}
