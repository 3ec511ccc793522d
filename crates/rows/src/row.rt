ghost use Rattle.std.specs.Prelude.{◌≡◌, Bool};

/// A row of memory that can answer a question of its own kind.
pub trait Row: Copy {
    /// What is asked of a row.
    type Question;

    ghost hit: { Self → Self.Question → Bool };

    /// Whether the row answers the question.
    fn answers(&self, question: &Self::Question) -> bool
        ensures { result ≡ hit self.now question.now };
}
