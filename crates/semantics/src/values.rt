// The value of an expression of the text, by the one evaluator: at 64 next states at once, or one bit of that.
ghost use Rattle.std.specs.Prelude.{◌≡◌};
ghost use Rattle.semantics.specs.Places.{meets, word_at};

// The expression at a place of the text at 64 next states at once. Where none can be read, no state meets it: 0 and no Option, since the definition gives
// every place of every text a word, and a text that was read has an expression at each place that is asked.
pub(crate) fn word_of(text: &[u8], place: usize, s: usize, block: usize) -> u64
    ensures { result ≡ word_at text.now place s block }
{
    let found = exprs::words::words(slices::parts::rest(text, place), s, block);
    let (word, _) = found.unwrap_or((0, 0));
    word
}

// Whether two states meet the expression at a place of the text: one bit of its word. The text and the place are two values, here and above: the places are
// those of a model, of which there are many to one text.
#[tactic(auto, using(crate::proofs::Laws::Places::bit_meets), unfolding(sets::specs::Bit::has))]
pub fn is_met(text: &[u8], place: usize, s: usize, t: usize) -> bool
    ensures { result ≡ meets text.now place s t }
{
    let word = word_of(text, place, s, t / 64);
    (word >> (t % 64)) % 2 == 1
}
