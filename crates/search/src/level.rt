// The levels of the table of counts, one for each choice that is made.
ghost use Rattle.std.specs.Prelude.{◌≡◌, ◌+◌, ◌≤◌};

// Where a level begins: five planes of 64 numbers each, in a table of 65 levels. The table is flat, as `held` and `plane` read it.
#[derive(Clone, Copy)]
pub struct Level {
    pub at: usize,
    ghost inside: { at + 320 ≤ 20800 },
}

impl Level {
    pub(crate) const FIRST: Level = Level { at: 0 };

    pub(crate) fn next(self) -> Level
        requires { self.at + 640 ≤ 20800 }
        ensures { result.at ≡ self.at + 320 }
    {
        Level { at: self.at + 320 }
    }
}
