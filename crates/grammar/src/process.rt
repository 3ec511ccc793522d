// Reading a process: processes, items and actions call each other over the text, while less and less
// of it is unread. The project asks for a reader in this form.
ghost use Rattle.std.specs.Prelude.{[], ◌∷◌};
ghost use Rattle.syntax.specs.Machine.{proc, item, opening, leaf, sign};
ghost use Rattle.grammar.specs.Reads.{ReadsIn, Acts, Prefixes};

use crate::unread::{Reading, Unread};
use lex::{Keyword, Kind, Refusal};
use syntax::{Entries, Terminal};

// How many brackets may be open at once.
const DEEPEST: usize = 16;

impl<'t> Unread<'t> {
    /// Reads items joined by `|`, under `depth` open brackets.
    #[cycle(process)]
    pub(crate) fn process(self, depth: usize) -> Reading<'t>
        ensures { ReadsIn depth (proc ∷ []) self.entry result }
    {
        let mut here = self.item(depth)?;
        while let Some(rest) = here.accept(Kind::Sign(b'|'))? {
            here = rest.item(depth)?;
        }
        Ok(here)
    }

    // Actions, each with a dot behind it, and then `nil`, a call or a bracket.
    // The hint: one call less for each item. `process` and `bracket` stay calls.
    #[cycle(process)]
    #[inline(always)]
    fn item(self, depth: usize) -> Reading<'t>
        ensures { ReadsIn depth (item ∷ []) self.entry result }
    {
        let mut here = self;
        loop {
            let (token, rest) = here.token()?;
            match token.kind {
                Kind::Reserved(Keyword::Nil) => return Ok(rest),
                Kind::Reserved(word) => here = rest.prefix(word, token.start, depth)?,
                Kind::Name => return rest.arguments(),
                Kind::Sign(_) => return here.bracket(depth),
                Kind::End | Kind::Variable | Kind::Word | Kind::Number(_) => {
                    return Err((Refusal::NotAllowed, token.start));
                }
            }
        }
    }

    // What follows the word of an action, which stands at `start`, and the dot behind the action.
    #[cycle(process)]
    fn prefix(self, word: Keyword, start: usize, depth: usize) -> Reading<'t>
        ensures { Prefixes depth word start self.entry result }
    {
        self.action(word, start, depth)?
            .expect(Terminal::Sign(b'.'))
    }

    // What follows the word of an action, which stands at `start`.
    #[cycle(process)]
    fn action(self, word: Keyword, start: usize, depth: usize) -> Reading<'t>
        ensures { Acts depth word start self.entry result }
    {
        match word {
            Keyword::Out => self.listed(Entries::Fields),
            Keyword::In | Keyword::Read => self.listed(Entries::Places),
            Keyword::Eval => self.eval(depth),
            Keyword::Newloc => self.fresh(),
            _ => Err((Refusal::NotAllowed, start)),
        }
    }

    #[cycle(process)]
    fn eval(self, depth: usize) -> Reading<'t>
        ensures { ReadsIn depth (opening ∷ sign 64 ∷ leaf Terminal.Target ∷ []) self.entry result }
    {
        self.bracket(depth)?.target()
    }

    // `(P)`
    #[cycle(process)]
    fn bracket(self, depth: usize) -> Reading<'t>
        ensures { ReadsIn depth (opening ∷ []) self.entry result }
    {
        let (token, rest) = self.token()?;
        if token.kind != Kind::Sign(b'(') {
            return Err((Refusal::NotAllowed, token.start));
        }
        if depth >= DEEPEST {
            return Err((Refusal::TooDeep, token.start));
        }
        rest.process(depth + 1)?.expect(Terminal::Sign(b')'))
    }
}
