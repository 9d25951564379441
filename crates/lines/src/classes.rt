// Classes of bytes, and how far a text keeps to one.
ghost use Rattle.std.specs.Prelude.{◌≡◌};
ghost use Rattle.lines.specs.Bytes.{belongs, prefix, is_token, allowed};

use exprs::token::Token;

// The bytes that a line, a name, a part of a rule and an expression have; those that the letters of a model allow; and those that both an expression has
// and the letters allow, so that a legal expression is gone over once.
// A class is a value and no closure, since the definitions name it (`all InName`), and a closure's contract would have to name it all the same. The number of
// letters and whether capitals may stand are two values, as the definitions take them (`LegalExpr n capitals`).
#[derive(Clone, Copy)]
pub enum Class {
    InLine,
    InName,
    InPart,
    InExpression,
    Allowed(usize, bool),
    InExpressionOf(usize, bool),
}

// Whether an expression may have the byte that stands for t.
fn is_token(t: Token) -> bool
    ensures { result ≡ is_token t }
{
    !matches!(t, Token::Other)
}

// A letter is among the first `letters`, and a capital one stands only where capitals may.
fn is_allowed(letters: usize, capitals: bool, t: Token) -> bool
    ensures { result ≡ allowed letters capitals t }
{
    match t {
        Token::Now(i) => (i as usize) < letters,
        Token::Next(i) => capitals & ((i as usize) < letters),
        _ => true,
    }
}

// Whether the byte b is in the class.
#[tactic(auto, unfolding(crate::specs::Bytes::belongs))]
fn in_class(c: Class, b: u8) -> bool
    ensures { result ≡ belongs c b }
{
    match c {
        Class::InLine => b != b'\n',
        Class::InName => matches!(b, b'a'..=b'z' | b'0'..=b'9'),
        Class::InPart => b != b':',
        Class::InExpression => is_token(exprs::token::classify(b)),
        Class::Allowed(letters, capitals) => {
            is_allowed(letters, capitals, exprs::token::classify(b))
        }
        Class::InExpressionOf(letters, capitals) => {
            let t = exprs::token::classify(b);
            is_token(t) & is_allowed(letters, capitals, t)
        }
    }
}

// How many bytes at the start of s are in the class.
pub fn prefix_of(c: Class, s: &[u8]) -> usize
    ensures { result ≡ prefix c s.now }
{
    s.iter().take_while(|b| in_class(c, **b)).count()
}
