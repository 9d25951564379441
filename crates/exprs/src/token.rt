// The bytes of which expressions are made.
ghost use Rattle.std.specs.Prelude.{◌≡◌};
ghost use Rattle.exprs.specs.Token.{token_of};

// What one byte stands for. A letter has its place in the alphabet: 0 for `a` and `A`.
// `Other` and no Option: the definitions ask of every byte of a text what its token allows (`before`, `allowed`), so an Option would be a case within a case.
// One flat enum: groups by how many operands follow would be three types, and a pattern two deep wherever one token is meant.
#[derive(Clone, Copy, Debug, PartialEq, Eq)]
pub enum Token {
    Constant(bool),
    Now(u8),
    Next(u8),
    Not,
    And,
    Or,
    Implies,
    Alike,
    Other,
}

#[tactic(auto, unfolding(crate::specs::Token::token_of))]
pub fn classify(b: u8) -> Token
    ensures { result ≡ token_of b }
{
    match b {
        b'0' => Token::Constant(false),
        b'1' => Token::Constant(true),
        b'!' => Token::Not,
        b'&' => Token::And,
        b'|' => Token::Or,
        b'>' => Token::Implies,
        b'=' => Token::Alike,
        b'a'..=b'g' => Token::Now(b - b'a'),
        b'A'..=b'G' => Token::Next(b - b'A'),
        _ => Token::Other,
    }
}
