// An order of the rules, as the bytes of their places.
ghost use Rattle.std.specs.Prelude.{◌≤◌, ◌≡◌};
ghost use Rattle.sets.specs.Orders.{is_order};

use sets::ruleset::RuleSet;

// Whether bytes are an order of so many rules. Where there are as many bytes as rules and each is a place of a rule, no place stands twice exactly when
// no place lacks, so it is enough to note which were seen.
pub fn is_order(order: &[u8], rules: usize) -> bool
    requires { rules ≤ 16 }
    ensures { result ≡ is_order rules order.now }
{
    if order.len() != rules {
        return false;
    }
    let mut seen = RuleSet::EMPTY;
    for byte in order {
        let place = *byte as usize;
        if rules <= place {
            return false;
        }
        seen = seen.with(place);
    }
    seen == RuleSet::full(rules)
}
