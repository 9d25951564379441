// A set of rules as a number: the first rule weighs 1, the next 2, and so on. No model has more than 16 rules.
ghost use Rattle.std.specs.Prelude.{◌≡◌, ◌-◌, ◌^◌, ◌<◌, ◌≤◌};
ghost use Rattle.std.specs.Int.Bits.{bit_and};
ghost use Rattle.std.specs.Int.Count.{ones};
ghost use Rattle.sets.specs.Bit.{has, full};
ghost use Rattle.sets.specs.Sets.{without, with};
ghost use Rattle.sets.specs.Next.{next_if_any};

// What a call answers, and the structs that it answers, hold a set as the number by which the C interface gives and takes it.
#[derive(Clone, Copy, Debug, PartialEq, Eq)]
pub struct RuleSet(pub u16);

// How many sets of so many rules there are: each set's number is below it. How many rules there are is a number, here and above, and no type of its own: a model
// has it among its places, and a text with its model knows that it is small (`Few`).
pub fn set_count(rules: usize) -> usize
    requires { rules ≤ 16 }
    ensures { result ≡ 2 ^ rules }
{
    1 << rules
}

impl RuleSet {
    // The empty set.
    pub const EMPTY: RuleSet = RuleSet(0);

    // The full set of so many rules.
    pub fn full(rules: usize) -> RuleSet
        requires { rules ≤ 16 }
        ensures { result.0 ≡ full rules }
    {
        RuleSet((set_count(rules) - 1) as u16)
    }

    // How many rules the set has.
    pub fn size(self) -> usize
        ensures { result ≡ ones self.0 }
    {
        self.0.count_ones() as usize
    }

    // The first rule of the set in the model's order.
    pub fn first(self) -> Option<usize>
        ensures { result ≡ next_if_any (has self.0) 0 16 }
    {
        if self == RuleSet::EMPTY {
            return None;
        }
        Some(self.0.trailing_zeros() as usize)
    }

    // Whether a rule is in the set. A rule is a place below 16, asked by a clause of each method: a type of such places would be made anew at each call.
    #[tactic(auto, unfolding(crate::specs::Bit::has))]
    pub fn has(self, rule: usize) -> bool
        requires { rule < 16 }
        ensures { result ≡ has self.0 rule }
    {
        (self.0 >> rule) % 2 == 1
    }

    // The set without a rule, which need not be in it.
    pub fn without(self, rule: usize) -> RuleSet
        requires { rule < 16 }
        ensures { result.0 ≡ without self.0 rule }
    {
        RuleSet(self.0 & !(1 << rule))
    }

    // The set with a rule, which may be in it already.
    #[tactic(auto, unfolding(crate::specs::Sets::with))]
    pub fn with(self, rule: usize) -> RuleSet
        requires { rule < 16 }
        ensures { result.0 ≡ with self.0 rule }
    {
        RuleSet(self.0 | 1 << rule)
    }

    // The rules of the set that another lacks. An operation of its own, so that a caller writes no operator that asks for a fact.
    pub fn less(self, gone: RuleSet) -> RuleSet
        ensures { result.0 ≡ self.0 - bit_and self.0 gone.0 }
    {
        RuleSet(self.0 & !gone.0)
    }
}
