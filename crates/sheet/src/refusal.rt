// Why a sheet is refused.
ghost use Rattle.std.specs.Prelude.{◌≡◌};
ghost use Rattle.sheet.specs.Refusals.{number_of, line_of};

// A sheet's refusal, with the line at which the reading ended if it was at one.
#[derive(Clone, Copy, Debug, PartialEq, Eq)]
pub enum SheetRefusal {
    NoUnit,
    Malformed(u64),
    TooLong,
    TooMany(u64),
}

impl SheetRefusal {
    // The number that is printed for it.
    pub fn number(self) -> u64
        ensures { result ≡ number_of self }
    {
        match self {
            SheetRefusal::NoUnit => 21,
            SheetRefusal::Malformed(_) => 22,
            SheetRefusal::TooLong => 23,
            SheetRefusal::TooMany(_) => 24,
        }
    }

    // The line that is printed for it: 0 for the text as a whole.
    pub fn line(self) -> u64
        ensures { result ≡ line_of self }
    {
        match self {
            SheetRefusal::NoUnit => 1,
            SheetRefusal::TooLong => 0,
            SheetRefusal::Malformed(line) => line,
            SheetRefusal::TooMany(line) => line,
        }
    }
}
