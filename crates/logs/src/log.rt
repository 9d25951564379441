// A log of states, as bytes.
ghost use Rattle.std.specs.Prelude.{◌≡◌, ◌≤◌};
ghost use Rattle.logs.specs.Log.{is_log};

// Whether bytes are a log of so many states. Every byte is looked at, without a branch and as a byte: several are compared at once then.
pub fn is_log(log: &[u8], states: usize) -> bool
    requires { states ≤ 128 }
    ensures { result ≡ is_log states log.now }
{
    let bound = states as u8;
    let beyond = log
        .iter()
        .fold(false, |beyond, state| beyond | (bound <= *state));
    !log.is_empty() & !beyond
}
