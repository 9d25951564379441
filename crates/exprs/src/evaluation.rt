// The one recursion over the bytes of an expression, operator first: how many bytes it has, with what it is worth to the caller.
ghost use Rattle.std.specs.Prelude.{◌≡◌};
ghost use Rattle.exprs.specs.Reading.{read_expr};
ghost use Rattle.exprs.specs.Folded.{worth_of};

use crate::token::Token;

// What an expression is worth: what a byte is that takes no operand, and what an operator makes of its operands. `!` is the one operator with one operand;
// the four with two are told apart by their token.
pub(crate) trait Worth: Copy {
    ghost use Rattle.std.specs.Prelude.{Some};
    ghost use Rattle.exprs.specs.declared.token.Token.{Token};
    ghost use Rattle.exprs.specs.Token.{operand_count};

    type Value: Copy;

    ghost leaf_worth: { Self → Token → Self.Value };

    ghost negation_worth: { Self → Self.Value → Self.Value };

    ghost binary_worth: { Self → Token → Self.Value → Self.Value → Self.Value };

    fn leaf(self, t: Token) -> Self::Value
        requires { operand_count t ≡ Some 0 }
        ensures { result ≡ leaf_worth self t };

    fn negation(self, x: Self::Value) -> Self::Value
        ensures { result ≡ negation_worth self x };

    fn binary(self, t: Token, x: Self::Value, y: Self::Value) -> Self::Value
        requires { operand_count t ≡ Some 2 }
        ensures { result ≡ binary_worth self t x y };
}

// What the expression that a slice begins with is worth, and its bytes; or that none stands there. Each operand is read from the part of the
// slice that begins at it. The bytes left fall with each call.
#[tactic(auto, using(crate::proofs::Operands::ways))]
pub(crate) fn evaluate<W: Worth>(w: W, s: &[u8]) -> Option<(W::Value, usize)>
    ensures { result ≡ worth_of (W.leaf_worth w) (W.negation_worth w) (W.binary_worth w) (read_expr s.now) }
{
    let (first, rest) = s.split_first()?;
    let t = crate::token::classify(*first);
    match t {
        Token::Constant(_) | Token::Now(_) | Token::Next(_) => Some((w.leaf(t), 1)),
        Token::Not => {
            let (x, one) = evaluate(w, rest)?;
            Some((w.negation(x), 1 + one))
        }
        Token::And | Token::Or | Token::Implies | Token::Alike => {
            let (x, one) = evaluate(w, rest)?;
            let (y, two) = evaluate(w, &rest[one..])?;
            Some((w.binary(t, x, y), 1 + one + two))
        }
        Token::Other => None,
    }
}
