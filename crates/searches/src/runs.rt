// The reached states as an answer, and with the runs by which a search has reached them.
ghost use Rattle.std.specs.Prelude.{◌≡◌};

use systems::tables::STATES;
use traces::runs::Run;

// The reached states as document 01 holds them, a mark for each and how many marks are set (its form has the count, so no list of states stands here); and how
// many pairs of states were tried. An answer, which is copied; the runs stay behind with the search.
#[derive(Clone, Copy)]
pub struct Reached {
    pub marks: [bool; STATES],
    pub count: usize,
    pub pairs: usize,
}

// The reached states so far, with a run to each in the order of marking; and how many pairs of states have been tried. The runs have room for those of the
// largest model in the value itself, since the library has no heap. How many of them are found stands beside them: an `ArrayVec` is not `Copy`.
#[derive(Clone, Copy)]
pub struct Runs {
    pub marks: [bool; STATES],
    pub runs: [Run; STATES],
    pub count: usize,
    pub pairs: usize,
}

impl Runs {
    ghost use Rattle.searches.specs.Stored.{found_in, no_runs, Markable, with_run};

    // Before the first mark.
    #[tactic(auto, unfolding(crate::specs::Stored::no_runs))]
    pub(crate) fn none() -> Runs
        ensures { result ≡ no_runs }
    {
        Runs {
            marks: [false; STATES],
            runs: [Run::default(); STATES],
            count: 0,
            pairs: 0,
        }
    }

    // The runs that are found.
    pub fn found(&self) -> &[Run]
        ensures { result.now ≡ found_in self.now }
    {
        &self.runs[..self.count.min(self.runs.len())]
    }

    // State t is marked, behind the run at place `parent`, or behind none.
    #[tactic(auto, unfolding(crate::specs::Stored::with_run))]
    pub(crate) fn mark(&mut self, parent: Option<u8>, t: usize)
        requires { Markable self.old t }
        ensures { self.new ≡ with_run self.old parent t }
    {
        self.marks[t] = true;
        self.runs[self.count] = Run {
            last: t as u8,
            parent,
        };
        self.count += 1;
    }
}
