// Parts of a slice that is handed on, and nothing copied: `ref_ptr` says where a part lies. Each answers for every place, so that no caller has to show
// that a place is within.
ghost use Rattle.std.specs.Prelude.{◌≡◌, ◌-◌, take, drop, get_or};
ghost use Rattle.slices.specs.Address.{rest_address, part_address};
ghost use Rattle.slices.specs.Same.{same};

// The first `to` bytes, or all where there are fewer.
pub fn front(s: &[u8], to: usize) -> &[u8]
    ensures result_value { result.now ≡ take to s.now }
    ensures ref_ptr_value { result.ref_ptr ≡ s.entry.ref_ptr }
{
    &s[..to.min(s.len())]
}

// What follows the first `from` bytes.
#[tactic(auto, unfolding(crate::specs::Address::rest_address, crate::specs::Address::bytes_on))]
pub fn rest(s: &[u8], from: usize) -> &[u8]
    ensures result_value { result.now ≡ drop from s.now }
    ensures ref_ptr_value { result.ref_ptr ≡ rest_address s.entry.ref_ptr s.now from }
{
    if from <= s.len() { &s[from..] } else { &s[..0] }
}

// The bytes from `from` up to `to`, or up to the end where there are fewer.
#[tactic(auto, unfolding(crate::specs::Address::part_address, crate::specs::Address::rest_address))]
pub fn part(s: &[u8], from: usize, to: usize) -> &[u8]
    ensures result_value { result.now ≡ take (to - from) (drop from s.now) }
    ensures ref_ptr_value { result.ref_ptr ≡ part_address s.entry.ref_ptr s.now from to }
{
    rest(front(s, to), from)
}

// The byte at a place, and 0 past the end: it is compared at once with a byte that is not 0, where an Option would be no plainer.
pub fn byte_at(s: &[u8], at: usize) -> u8
    ensures { result ≡ get_or s.now at 0 }
{
    s.get(at).copied().unwrap_or(0)
}

// Whether two slices hold the same bytes. Of its own, since `same` is the word of the definitions above, and `==` promises another.
#[tactic(auto, unfolding(crate::specs::Same::same))]
pub fn same_bytes(a: &[u8], b: &[u8]) -> bool
    ensures { result ≡ same a.now b.now }
{
    a == b
}
