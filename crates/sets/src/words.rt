// The numbers below 64 as the bits of a word, so that 64 sets of six rules are handled at once.
ghost use Rattle.std.specs.Prelude.{◌≡◌, ◌<◌};
ghost use Rattle.sets.specs.Bit.{has};
ghost use Rattle.sets.specs.Sets.{part};
ghost use Rattle.sets.specs.Gathered.{set_of, AgreesAt};

// The sets that have a rule.
pub fn having(rule: usize) -> u64
    ensures { result ≡ set_of 64 (λ t. has t rule) }
{
    match rule {
        0 => 0xAAAA_AAAA_AAAA_AAAA,
        1 => 0xCCCC_CCCC_CCCC_CCCC,
        2 => 0xF0F0_F0F0_F0F0_F0F0,
        3 => 0xFF00_FF00_FF00_FF00,
        4 => 0xFFFF_0000_FFFF_0000,
        5 => 0xFFFF_FFFF_0000_0000,
        _ => 0,
    }
}

// The sets that fit at each rule of a set, where `fitting` gives those that fit at a rule.
fn agreeing<F: Fn(usize) -> u64>(set: usize, fitting: F) -> u64
    requires { F.IsAlwaysCallable fitting }
    ensures { AgreesAt (F.post fitting) set result }
{
    let mut word = u64::MAX;
    for rule in 0..6 {
        if (set >> rule) % 2 == 1 {
            word &= fitting(rule);
        }
    }
    word
}

// The sets of which a set is a part: they have each of its rules.
pub fn above(set: usize) -> u64
    requires { set < 64 }
    ensures { result ≡ set_of 64 (λ t. part set t) }
{
    agreeing(set, having)
}

// The parts of a set: they have no rule that it lacks.
pub fn below(set: usize) -> u64
    requires { set < 64 }
    ensures { result ≡ set_of 64 (λ t. part t set) }
{
    agreeing(63 - set, |rule| !having(rule))
}
