// The lines with an expression over the bits now, `init=` and `prop=`, and the refusals 5 to 8 of any expression.
ghost use Rattle.std.specs.Prelude.{◌≡◌};
ghost use Rattle.lines.specs.Lines.{all, is_one, fault_of, state_line, fault_number_of, line_of};

use crate::classes::Class;
use crate::line::Said;
use refusals::refusal::Reason;

// Whether e is exactly one expression.
fn is_one(e: &[u8]) -> bool
    ensures { result ≡ is_one e.now }
{
    exprs::reading::read(e) == Some(e.len())
}

// Whether every byte of e is in the class.
#[tactic(auto, unfolding(crate::specs::Lines::all))]
fn all_in(c: Class, e: &[u8]) -> bool
    ensures { result ≡ all c e.now }
{
    crate::classes::prefix_of(c, e) == e.len()
}

// Whether the expression e may stand in a model of `vars` letters, and if not, why. A legal one is gone over once. Whether capitals may stand is a flag, as the
// definition has it (`fault_of`).
#[tactic(auto, using(crate::proofs::Laws::Numbers::by_tests))]
pub fn fault_in(vars: usize, capitals: bool, e: &[u8]) -> Result<(), Reason>
    ensures { fault_number_of result ≡ fault_of vars capitals e.now }
{
    if !matches!(e.len(), 1..=64) {
        return Err(Reason::LengthWrong);
    }
    if !all_in(Class::InExpressionOf(vars, capitals), e) {
        if !all_in(Class::InExpression, e) {
            return Err(Reason::ByteOther);
        }
        return Err(Reason::LetterBeyond);
    }
    if is_one(e) {
        Ok(())
    } else {
        Err(Reason::NotOneExpression)
    }
}

// The line with this key and an expression over the bits now, in a model of `vars` letters.
pub fn state_line(key: &[u8], vars: usize, s: &[u8]) -> Result<Said<usize>, Reason>
    ensures { line_of result ≡ state_line key.now vars s.now }
{
    crate::line::keyed_line(key, s, |v| fault_in(vars, false, v).map(|()| key.len()))
}
