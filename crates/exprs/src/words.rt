// The value of an expression over the state now and the state one second later. The state now is fixed, and the values at 64 next states are
// found at once, one bit each: the next states are 64 * block and the 63 after it. A single value is a bit of this.
ghost use Rattle.std.specs.Prelude.{◌≡◌, ◌+◌, ◌*◌};
ghost use Rattle.sets.specs.Bit.{has};
ghost use Rattle.sets.specs.Gathered.{set_of};
ghost use Rattle.exprs.specs.Answers.{words_of};

use crate::evaluation::Worth;
use crate::token::Token;

// A state's bit at a place. A place past the type's width has no bit.
#[tactic(auto, using(crate::proofs::Letters::shifted), unfolding(sets::specs::Bit::has))]
fn bit_at(state: usize, place: u8) -> bool
    ensures { result ≡ has state place }
{
    state.unbounded_shr(u32::from(place)) % 2 == 1
}

// One value at all 64 states.
fn same_bits(v: bool) -> u64
    ensures { result ≡ set_of 64 (λ t. v) }
{
    if v { u64::MAX } else { 0 }
}

// A letter's bit in each of the 64 next states. The first six letters tell the states of a block apart, and the others are the block's own bits.
fn next_bits(place: u8, block: usize) -> u64
    ensures { result ≡ set_of 64 (λ t. has (64 * block + t) place) }
{
    if place < 6 {
        sets::words::having(place as usize)
    } else {
        same_bits(bit_at(block, place - 6))
    }
}

// The state now, and the block of 64 next states; two values where they are handed in, since callers go over the blocks of one state.
#[derive(Clone, Copy)]
struct NextStates {
    state: usize,
    block: usize,
}

// `leaf` and `binary` are asked only of tokens with as many operands, so their last arms are proved never to be reached.
impl Worth for NextStates {
    ghost use Rattle.exprs.specs.Answers.{leaf_word, negation_word, binary_word};

    type Value = u64;

    ghost leaf_worth = { λ w t. leaf_word w.state w.block t };

    ghost negation_worth = { λ w x. negation_word x };

    ghost binary_worth = { λ w t x y. binary_word t x y };

    #[inline(always)]
    fn leaf(self, t: Token) -> u64 {
        match t {
            Token::Constant(v) => same_bits(v),
            Token::Now(i) => same_bits(bit_at(self.state, i)),
            Token::Next(i) => next_bits(i, self.block),
            _ => unreachable!(),
        }
    }

    #[inline(always)]
    fn negation(self, x: u64) -> u64 {
        !x
    }

    #[inline(always)]
    fn binary(self, t: Token, x: u64, y: u64) -> u64 {
        match t {
            Token::And => x & y,
            Token::Or => x | y,
            Token::Implies => !x | y,
            Token::Alike => !(x ^ y),
            _ => unreachable!(),
        }
    }
}

// The values of the expression that a slice begins with at 64 next states at once, one bit each, and its bytes; or that none stands there.
pub fn words(s: &[u8], now: usize, block: usize) -> Option<(u64, usize)>
    ensures { result ≡ words_of s.now now block }
{
    crate::evaluation::evaluate(NextStates { state: now, block }, s)
}
