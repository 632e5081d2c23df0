//! The six numbers of a recording, or of many.
ghost use Rattle.std.specs.Prelude.{◌≡◌, ◌+◌, ◌^◌, ◌≤◌, ◌<◌, ℕ};
ghost use Rattle.rules_figures.specs.Figures.{nothing, one-refused, plus};
ghost use Rattle.tally.specs.Counts.{figures-of, Within};

/// Tiles asked for, painted and hidden; render commands; depth fills; refused recordings.
#[derive(Clone, Copy, Debug, PartialEq, Eq)]
pub struct Figures {
    pub asked: u64,
    pub painted: u64,
    pub hidden: u64,
    pub commands: u64,
    pub fills: u64,
    pub refused: u64,
}

impl Figures {
    /// Of nothing.
    pub fn nothing() -> Figures
        ensures { figures-of result ≡ nothing }
    {
        Figures {
            asked: 0,
            painted: 0,
            hidden: 0,
            commands: 0,
            fills: 0,
            refused: 0,
        }
    }

    /// Of a recording that is refused.
    pub fn one_refused() -> Figures
        ensures { figures-of result ≡ one-refused }
    {
        Figures {
            refused: 1,
            ..Figures::nothing()
        }
    }

    /// Of both.
    pub fn plus(self, other: Figures) -> Figures
        requires { (n m : ℕ) × (n + m < 2 ^ 64) × Within n (figures-of self) × Within m (figures-of other) }
        ensures { figures-of result ≡ plus (figures-of self) (figures-of other) }
    {
        Figures {
            asked: self.asked + other.asked,
            painted: self.painted + other.painted,
            hidden: self.hidden + other.hidden,
            commands: self.commands + other.commands,
            fills: self.fills + other.fills,
            refused: self.refused + other.refused,
        }
    }
}
