// The parts of an answer that a C host reads, the same for every call.
ghost use Rattle.std.specs.Prelude.{◌≡◌};
ghost use Rattle.packing.specs.declared.parts.Parts.{Parts};
ghost use Rattle.refusals.specs.Numbers.{number_of};
ghost use Rattle.packing.specs.Packing.{accepted, counted, refused, verdict_parts, number_parts, found_parts, blamed_parts, said_parts};

use calls::verdict::Verdict;
use logs::blame::Blamed;
use lookup::answer::Suffices;
use refusals::refusal::Refusal;
use sets::one_core::OneCore;

// `amount` is the trace's length, the pairs tried, the number of sets, the set, or what two lists say; `holds` is the verdict, that a listed core is
// inside, and that no state of a log breaks a property; `judgements` is how many were made to find one core, and 0 of every other call. The C interface
// fixes these parts: 0 for no refusal in place of an Option, and a flag beside an amount in place of an enum for each call.
#[derive(Clone, Copy, Debug, PartialEq, Eq)]
pub struct Parts {
    pub number: u8,
    pub line: usize,
    pub amount: usize,
    pub holds: bool,
    pub judgements: usize,
}

impl Parts {
    // Those of an accepted call that tells no judgements.
    #[tactic(auto, unfolding(crate::specs::Packing::accepted))]
    fn accepted(amount: usize, holds: bool) -> Parts
        ensures { result ≡ accepted amount holds }
    {
        Parts::counted(amount, holds, 0)
    }

    // Those of an accepted call, with the judgements that it made.
    #[tactic(auto, unfolding(crate::specs::Packing::counted))]
    fn counted(amount: usize, holds: bool, judgements: usize) -> Parts
        ensures { result ≡ counted amount holds judgements }
    {
        Parts {
            number: 0,
            line: 0,
            amount,
            holds,
            judgements,
        }
    }

    // Those of a refused call.
    #[tactic(auto, unfolding(crate::specs::Packing::refused))]
    pub(crate) fn refused(refusal: Refusal) -> Parts
        ensures { result ≡ refused (number_of refusal.reason) refusal.line }
    {
        Parts {
            number: refusal.reason.number(),
            line: refusal.line,
            amount: 0,
            holds: false,
            judgements: 0,
        }
    }
}

// What an accepted call answers has parts. No From: a number has parts only as the answer of a call.
pub trait Answered {
    ghost parts_of: { Self → Parts };

    fn parts(self) -> Parts
        ensures { result ≡ parts_of self };
}

#[tactic(auto, unfolding(crate::specs::Packing::verdict_parts))]
impl Answered for Verdict {
    ghost parts_of = { verdict_parts };

    fn parts(self) -> Parts {
        match self {
            Verdict::Holds => Parts::accepted(0, true),
            Verdict::Broken(states) => Parts::accepted(states, false),
        }
    }
}

// So many pairs, or so many sets.
#[tactic(auto, unfolding(crate::specs::Packing::number_parts))]
impl Answered for usize {
    ghost parts_of = { number_parts };

    fn parts(self) -> Parts {
        Parts::accepted(self, false)
    }
}

// A set of rules: by its number.
#[tactic(auto, unfolding(crate::specs::Packing::number_parts))]
impl Answered for u16 {
    ghost parts_of = { number_parts };

    fn parts(self) -> Parts {
        usize::from(self).parts()
    }
}

// Set 0 stands for no core, since the C interface has no Option.
#[tactic(auto, unfolding(crate::specs::Packing::found_parts, crate::specs::Packing::core_parts))]
impl Answered for OneCore {
    ghost parts_of = { found_parts };

    fn parts(self) -> Parts {
        match self.core {
            Some(set) => Parts::counted(set as usize, true, self.judgements),
            None => Parts::counted(0, false, self.judgements),
        }
    }
}

// The blamed set, and whether no state of the log breaks a property.
#[tactic(auto, unfolding(crate::specs::Packing::blamed_parts))]
impl Answered for Blamed {
    ghost parts_of = { blamed_parts };

    fn parts(self) -> Parts {
        Parts::accepted(self.set as usize, self.breach.is_none())
    }
}

// 1 where a listed core is inside, 2 where a listed cut is apart, 0 for unlisted.
#[tactic(auto, unfolding(crate::specs::Packing::said_parts))]
impl Answered for Suffices {
    ghost parts_of = { said_parts };

    fn parts(self) -> Parts {
        match self {
            Suffices::CoreInside(_) => Parts::accepted(1, true),
            Suffices::CutApart(_) => Parts::accepted(2, false),
            Suffices::Unlisted => Parts::accepted(0, false),
        }
    }
}
