// The trace among the runs of a search: the first of them to a bad state, written out.
ghost use Rattle.std.specs.Prelude.{◌≡◌, [], get_or};
ghost use Rattle.std.specs.List.{position};
ghost use Rattle.systems.specs.ByTables.{mark_at};
ghost use Rattle.traces.specs.Stored.{runs_in, Chained};
ghost use Rattle.traces.specs.Traced.{trace_with};

use crate::runs::Run;
use arrayvec::ArrayVec;
use systems::tables::STATES;

// The states of a run that ends in a bad state, in their order: so many, and what follows them is 0. An array with a count, since an `ArrayVec` cannot be
// copied, as an answer is. A set that holds has none, and no Option tells it: the definition of a trace is a list, which is empty then.
#[derive(Clone, Copy)]
pub struct Trace {
    count: usize,
    path: [u8; STATES],
}

impl Trace {
    ghost use Rattle.std.specs.Prelude.{◌≤◌, length};
    ghost use Rattle.traces.specs.Traced.{states_of};

    // The trace of a set that holds.
    #[tactic(auto, unfolding(crate::specs::Traced::trace_with))]
    pub fn none() -> Trace
        ensures { result ≡ trace_with [] }
    {
        Trace {
            count: 0,
            path: [0; STATES],
        }
    }

    // A trace of these states.
    fn of(states: &[u8]) -> Trace
        requires { length states.now ≤ 128 }
        ensures { result ≡ trace_with states.now }
    {
        let mut path = [0; STATES];
        path[..states.len()].copy_from_slice(states);
        Trace {
            count: states.len(),
            path,
        }
    }

    // The states in their order. No trace counts more than its array has.
    pub fn states(&self) -> &[u8]
        ensures { result.now ≡ states_of self.now }
    {
        &self.path[..self.count.min(STATES)]
    }
}

// The place of the first run to a bad state, if there is one.
#[tactic(auto, unfolding(systems::specs::ByTables::mark_at))]
pub fn first_bad(runs: &[Run], bad: &[bool; STATES]) -> Option<usize>
    requires { Chained runs.now }
    ensures { result ≡ position (λ run. mark_at bad.now run.last) runs.now }
{
    runs.iter().position(|run| bad[run.last as usize])
}

// The run at a place; no state, if there is none there, as in the list of the runs. Its states are met from its end on, and then turned round.
pub fn run_at(runs: &[Run], place: usize) -> Trace
    requires { Chained runs.now }
    ensures { result ≡ trace_with (get_or (runs_in runs.now) place []) }
{
    let mut path = ArrayVec::<u8, STATES>::new();
    let mut next = runs.get(place);
    while let Some(run) = next {
        path.push(run.last);
        next = run.parent.and_then(|place| runs.get(place as usize));
    }
    path.reverse();
    Trace::of(&path)
}
