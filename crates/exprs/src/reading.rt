// Reading an expression: how many bytes it has.
ghost use Rattle.std.specs.Prelude.{◌≡◌};
ghost use Rattle.exprs.specs.Answers.{read_of};

use crate::evaluation::Worth;
use crate::token::Token;

// Where only the bytes are asked for, every expression is worth the same.
#[derive(Clone, Copy)]
struct Bytes;

impl Worth for Bytes {
    type Value = ();

    ghost leaf_worth = { λ w t. tt };

    ghost negation_worth = { λ w x. tt };

    ghost binary_worth = { λ w t x y. tt };

    fn leaf(self, _t: Token) {}

    fn negation(self, _x: ()) {}

    fn binary(self, _t: Token, _x: (), _y: ()) {}
}

// How many bytes the expression has that a slice begins with, or that none stands there.
pub fn read(s: &[u8]) -> Option<usize>
    ensures { result ≡ read_of s.now }
{
    crate::evaluation::evaluate(Bytes, s).map(|(_, bytes)| bytes)
}
