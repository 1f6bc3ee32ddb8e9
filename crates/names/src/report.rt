// The report of a call. Numbers 0 to 13 follow the requirements report's order, and 3 is not used; 14 to 16 are document 01's.
// Inside the manager a call that refuses hands back its report as the error of a `Result`.
ghost use Rattle.std.specs.Prelude.{◌≡◌};
ghost use Rattle.names.specs.Numbers.{number_of};

#[derive(Clone, Copy, PartialEq, Eq)]
pub enum Report {
    Accepted = 0,
    OutOfMemory = 1,
    NotEmpty = 2,
    SizeTooSmall = 4,
    NoSuchStore = 5,
    StoreInUse = 6,
    RootResize = 7,
    NotOnlyChild = 8,
    UnknownAddress = 9,
    NoSuchStack = 10,
    CannotShrink = 11,
    NoThreadContext = 12,
    Fragmentation = 13,
    TableFull = 14,
    BadArea = 15,
    UnsoundTable = 16,
}

impl Report {
    pub fn number(self) -> u32
        ensures { result ≡ number_of self }
    {
        self as u32
    }
}
