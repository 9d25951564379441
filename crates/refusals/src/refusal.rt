// The reasons for which calls are refused, in the order of their numbers, and a refusal: a reason with its line.
ghost use Rattle.std.specs.Prelude.{◌≡◌};
ghost use Rattle.refusals.specs.Numbers.{number_of};

// Each reason with the number by which a host knows it.
#[derive(Clone, Copy, Debug, PartialEq, Eq)]
pub enum Reason {
    LineMissing = 1,
    CountWrong = 2,
    NameImproper = 3,
    NameTaken = 4,
    LengthWrong = 5,
    ByteOther = 6,
    LetterBeyond = 7,
    NotOneExpression = 8,
    BytesFollow = 9,
    SetBeyond = 10,
    BytesFewer = 11,
    ListOdd = 12,
    NoOrder = 13,
    NoLog = 14,
    InitUnmet = 15,
}

// The line is 0 where the reason concerns no line of the text, and no Option: 0 is what a host is then told, and no line has that number.
#[derive(Clone, Copy, Debug, PartialEq, Eq)]
pub struct Refusal {
    pub reason: Reason,
    pub line: usize,
}

impl Reason {
    // The number by which a host knows the reason. A method and no From: a number stands for a reason only where somebody is told of it, by name.
    pub fn number(self) -> u8
        ensures { result ≡ number_of self }
    {
        self as u8
    }

    // The refusal for this reason at a line of the text.
    pub fn at(self, line: usize) -> Refusal
        ensures { result ≡ record { reason = self; line = line } }
    {
        Refusal { reason: self, line }
    }
}

// A refusal that concerns no line of the text.
impl From<Reason> for Refusal {
    ghost from_gives = { λ reason r. r ≡ record { reason = reason; line = 0 } };

    fn from(reason: Reason) -> Refusal {
        reason.at(0)
    }
}
