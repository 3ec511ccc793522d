ghost use Rattle.std.specs.Prelude.{◌≡◌, ◌<◌, ◌≤◌, min, MatchOption};

/// One of `MOST` things that are told by their numbers; there are at most 256.
#[derive(Clone, Copy, PartialEq, Eq, Debug)]
pub struct Numbered<const MOST: usize> {
    number: u8,
    ghost below: { number < MOST },
}

impl<const MOST: usize> Numbered<MOST> {
    // No `TryFrom`: a number is refused only out of range, and an error would say no more.
    /// The thing of a number, or nothing where the number is out of range.
    pub fn new(number: usize) -> Option<Numbered<MOST>>
        ensures { MatchOption result (min MOST 256 ≤ number) (λ s. s.number ≡ number) }
    {
        let number = u8::try_from(number).ok()?;
        // No `then`: its closure does not know the test that lets it make a `Numbered`.
        if usize::from(number) < MOST {
            Some(Numbered { number })
        } else {
            None
        }
    }

    // No `From`: the name says which number a `usize` would be.
    /// The number that tells the thing.
    pub fn number(self) -> usize
        ensures { result ≡ self.entry.number }
    {
        usize::from(self.number)
    }
}
