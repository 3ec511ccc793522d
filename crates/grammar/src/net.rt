// Reading the lines of a text, and the answer for a whole text.
ghost use Rattle.std.specs.Prelude.{◌≡◌, [], ◌∷◌};
ghost use Rattle.grammar.specs.Judged.{Judged};
ghost use Rattle.syntax.specs.Machine.{leaf, sign, many, aliases, lines, line_body, net, line_key, run};
ghost use Rattle.grammar.specs.Reads.{unread, Reads, ReadsIn, answered, verdict};

use crate::unread::{Reading, Unread};
use lex::{Keyword, Kind, Refusal};
use syntax::{Entries, Lines, Terminal};

// The longest text that is read.
const LONGEST: usize = 16_384;

// The reserved word that such lines begin with. No `From`: lines are no words, they begin with one.
fn first_word(which: Lines) -> Keyword
    ensures { result ≡ line_key which }
{
    match which {
        Lines::Sites => Keyword::Site,
        Lines::Defs => Keyword::Def,
        Lines::Puts => Keyword::Put,
        Lines::Runs => Keyword::Run,
    }
}

impl<'t> Unread<'t> {
    // What follows an alias.
    fn named(self) -> Reading<'t>
        ensures { Reads (sign 61 ∷ leaf Terminal.Name ∷ sign 59 ∷ []) self.entry result }
    {
        self.expect(Terminal::Sign(b'='))?
            .expect(Terminal::Name)?
            .expect(Terminal::Sign(b';'))
    }

    // As in `lines` and `process`: one function for the three loops would take a step whose contract
    // speaks of a symbol's reading, which is longer than the loop.
    fn aliases(self) -> Reading<'t>
        ensures { Reads (many aliases ∷ []) self.entry result }
    {
        let mut here = self;
        while let Some(rest) = here.accept(Kind::Name)? {
            here = rest.named()?;
        }
        Ok(here)
    }

    fn site(self) -> Reading<'t>
        ensures { ReadsIn 0 (line_body Lines.Sites) self.entry result }
    {
        self.expect(Terminal::Name)?
            .expect(Terminal::Sign(b'{'))?
            .aliases()?
            .expect(Terminal::Sign(b'}'))
    }

    fn def(self) -> Reading<'t>
        ensures { ReadsIn 0 (line_body Lines.Defs) self.entry result }
    {
        self.expect(Terminal::Name)?
            .expect(Terminal::Sign(b'('))?
            .upto(Entries::Params)?
            .expect(Terminal::Sign(b')'))?
            .expect(Terminal::Sign(b'='))?
            .process(0)?
            .expect(Terminal::Sign(b';'))
    }

    fn put(self) -> Reading<'t>
        ensures { ReadsIn 0 (line_body Lines.Puts) self.entry result }
    {
        self.expect(Terminal::Name)?
            .expect(Terminal::Sign(b'('))?
            .some(Entries::Fields)?
            .expect(Terminal::Sign(b')'))?
            .expect(Terminal::Sign(b';'))
    }

    fn run(self) -> Reading<'t>
        ensures { ReadsIn 0 (line_body Lines.Runs) self.entry result }
    {
        self.expect(Terminal::Name)?
            .process(0)?
            .expect(Terminal::Sign(b';'))
    }

    // What follows the first word of a line. The machine's definitions speak of the sort of lines, so
    // that a closure for the step would be passed beside the sort, and not in its place.
    fn line(self, which: Lines) -> Reading<'t>
        ensures { ReadsIn 0 (line_body which) self.entry result }
    {
        match which {
            Lines::Sites => self.site(),
            Lines::Defs => self.def(),
            Lines::Puts => self.put(),
            Lines::Runs => self.run(),
        }
    }

    fn lines(self, which: Lines) -> Reading<'t>
        ensures { ReadsIn 0 (many (lines which) ∷ []) self.entry result }
    {
        let word = first_word(which);
        let mut here = self;
        while let Some(rest) = here.accept(Kind::Reserved(word))? {
            here = rest.line(which)?;
        }
        Ok(here)
    }

    fn net(self) -> Reading<'t>
        ensures { ReadsIn 0 net self.entry result }
    {
        self.lines(Lines::Sites)?
            .lines(Lines::Defs)?
            .lines(Lines::Puts)?
            .lines(Lines::Runs)
    }

    // Where the text ends, if nothing more follows.
    fn end(self) -> Result<usize, (Refusal, usize)>
        ensures { answered result ≡ run [] (unread self.entry) }
    {
        let (token, _) = self.token()?;
        if token.kind == Kind::End {
            Ok(token.start)
        } else {
            Err((Refusal::NotAllowed, token.start))
        }
    }
}

fn read_text(text: &[u8]) -> Result<usize, (Refusal, usize)>
    ensures { answered result ≡ verdict text.now }
{
    if text.len() > LONGEST {
        return Err((Refusal::TooLong, 0));
    }
    Unread { text, at: 0 }.net()?.end()
}

/// The answer for a text: 0 and its length where it is one of the grammar, else the refusal's number
/// and place.
// A number and a place, and no `Result`: the project asks for an answer in this form.
pub fn check(text: &[u8]) -> (u8, usize)
    ensures is { result ≡ verdict text.now }
    ensures judged { Judged text.now result }
{
    match read_text(text) {
        Ok(length) => (0, length),
        Err((refusal, place)) => (refusal.number(), place),
    }
}
