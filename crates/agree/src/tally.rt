use std::fmt;

/// How many turns were made, and in how many of them the two ends agreed.
#[derive(Clone, Copy, Default)]
pub struct Tally {
    turns: u32,
    agreed: u32,
}

impl Tally {
    /// Notes one turn more, up to the largest number there is.
    pub(crate) fn note(&mut self, agreed: bool) {
        self.turns = self.turns.saturating_add(1);
        if agreed {
            self.agreed = self.agreed.saturating_add(1);
        }
    }
}

impl fmt::Display for Tally {
    fn fmt<W: fmt::Write>(&self, f: &mut fmt::Formatter<W>) -> fmt::Result {
        let turns = self.turns;
        let agreed = self.agreed;
        write!(f, "{turns} turns, the two agree in {agreed}")
    }
}
