// The search in one list of sets. It stops at the first that fits.
ghost use Rattle.std.specs.Prelude.{◌≡◌};
ghost use Rattle.sets.specs.Sets.{part};
ghost use Rattle.lookup.specs.Search.{first_in};

// The place of the first listed set that is a part of `set`: that of the first of its two bytes. An odd byte at the end is passed over.
pub(crate) fn first_inside(set: u32, list: &[u8]) -> Option<usize>
    ensures { result ≡ first_in (λ S. part S set) list.now }
{
    let (sets, _) = list.as_chunks::<2>();
    let found = sets.iter().position(|bytes| {
        let listed = u32::from(u16::from_le_bytes(*bytes));
        listed & set == listed
    })?;
    Some(2 * found)
}
