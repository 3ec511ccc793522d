// Reading what stands in brackets: fields, places and parameters.
ghost use Rattle.std.specs.Prelude.{[], ◌∷◌};
ghost use Rattle.syntax.specs.Machine.{leaf, sign, entry, more, upto, listed};
ghost use Rattle.grammar.specs.Reads.{Reads};

use crate::terms::begins;
use crate::unread::{Reading, Unread};
use lex::{Kind, Refusal};
use syntax::{Entries, Terminal};

// How many entries may stand behind the first.
const MORE: usize = 3;

impl<'t> Unread<'t> {
    fn field(self) -> Reading<'t>
        ensures { Reads (entry Entries.Fields ∷ []) self.entry result }
    {
        let (token, rest) = self.token()?;
        match token.kind {
            Kind::Name | Kind::Variable | Kind::Word | Kind::Number(Some(_)) => Ok(rest),
            Kind::Number(None) => Err((Refusal::TooLarge, token.start)),
            Kind::End | Kind::Reserved(_) | Kind::Sign(_) => {
                Err((Refusal::NotAllowed, token.start))
            }
        }
    }

    // `$v:type`
    fn param(self) -> Reading<'t>
        ensures { Reads (leaf Terminal.Variable ∷ sign 58 ∷ leaf Terminal.TypeWord ∷ []) self.entry result }
    {
        self.expect(Terminal::Variable)?
            .expect(Terminal::Sign(b':'))?
            .expect(Terminal::TypeWord)
    }

    fn place(self) -> Reading<'t>
        ensures { Reads (entry Entries.Places ∷ []) self.entry result }
    {
        match self.accept(Kind::Sign(b'!'))? {
            Some(rest) => rest.param(),
            None => self.field(),
        }
    }

    // One step for each sort of entries. The machine's definitions speak of the sort, so that a
    // closure for the step would be passed beside the sort, and not in its place.
    fn entry(self, entries: Entries) -> Reading<'t>
        ensures { Reads (entry entries ∷ []) self.entry result }
    {
        match entries {
            Entries::Fields => self.field(),
            Entries::Places => self.place(),
            Entries::Params => self.param(),
        }
    }

    // Up to three more entries, each behind a comma.
    fn more(self, entries: Entries) -> Reading<'t>
        ensures { Reads (more entries 3 ∷ []) self.entry result }
    {
        let mut here = self;
        for _ in 0..MORE {
            let Some(rest) = here.accept(Kind::Sign(b','))? else {
                return Ok(here);
            };
            here = rest.entry(entries)?;
        }
        Ok(here)
    }

    /// Reads one to four entries.
    pub(crate) fn some(self, entries: Entries) -> Reading<'t>
        ensures { Reads (entry entries ∷ more entries 3 ∷ []) self.entry result }
    {
        self.entry(entries)?.more(entries)
    }

    /// Reads up to four entries.
    pub(crate) fn upto(self, entries: Entries) -> Reading<'t>
        ensures { Reads (upto entries ∷ []) self.entry result }
    {
        let (token, _) = self.token()?;
        if begins(token.kind, entries) {
            self.some(entries)
        } else {
            Ok(self)
        }
    }

    /// Reads what follows the word of an action that lists entries: the list and the target.
    pub(crate) fn listed(self, entries: Entries) -> Reading<'t>
        ensures { Reads (listed entries) self.entry result }
    {
        self.expect(Terminal::Sign(b'('))?
            .some(entries)?
            .expect(Terminal::Sign(b')'))?
            .target()
    }

    /// Reads `@` and a target.
    pub(crate) fn target(self) -> Reading<'t>
        ensures { Reads (sign 64 ∷ leaf Terminal.Target ∷ []) self.entry result }
    {
        self.expect(Terminal::Sign(b'@'))?.expect(Terminal::Target)
    }

    /// Reads what follows a call's name.
    pub(crate) fn arguments(self) -> Reading<'t>
        ensures { Reads (sign 40 ∷ upto Entries.Fields ∷ sign 41 ∷ []) self.entry result }
    {
        self.expect(Terminal::Sign(b'('))?
            .upto(Entries::Fields)?
            .expect(Terminal::Sign(b')'))
    }

    /// Reads what follows `newloc`.
    pub(crate) fn fresh(self) -> Reading<'t>
        ensures { Reads (sign 40 ∷ leaf Terminal.Variable ∷ sign 41 ∷ []) self.entry result }
    {
        self.expect(Terminal::Sign(b'('))?
            .expect(Terminal::Variable)?
            .expect(Terminal::Sign(b')'))
    }
}
