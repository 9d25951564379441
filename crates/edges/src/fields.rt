// What a field of a case tells: a number in base ten, or bytes: `\n`, `\r` and `\x` with two digits of base 16 (small letters) stand for one byte each,
// so that every byte can be written.
ghost use Rattle.std.specs.Prelude.{◌<◌, length, IfSome};

use arrayvec::ArrayVec;

// So many bytes of a field are told, the first of them.
const MOST_BYTES: usize = 2048;

// The bytes that a field tells. They lie in the program's own frame: memory that has to be asked for can be refused.
pub(crate) type Told = ArrayVec<u8, MOST_BYTES>;

// The number in a field, of which the last 32 bits count. Each byte counts by its last four bits, which are a digit's value: no field is refused.
pub(crate) fn number(field: &[u8]) -> u32 {
    field.iter().fold(0, |number: u32, b| {
        number.wrapping_mul(10).wrapping_add((*b % 16) as u32)
    })
}

// The value of a digit of base 16. Another byte, which no case has there, counts by its last four bits.
fn digit(b: u8) -> u8
    ensures { result < 16 }
{
    match b {
        b'a'.. => (b - b'a' + 10) % 16,
        _ => b % 16,
    }
}

// The byte that a field begins with, written as itself or behind a backslash, and what of the field follows. A backslash with another byte than those
// of the cases takes that byte with it, and tells what `\x` would.
fn first_byte(field: &[u8]) -> Option<(u8, &[u8])>
    ensures { IfSome result (λ r. length r.1.now < length field.now) }
{
    match field {
        [] => None,
        [b'\\', b'n', rest @ ..] => Some((b'\n', rest)),
        [b'\\', b'r', rest @ ..] => Some((b'\r', rest)),
        [b'\\', rest @ ..] => {
            let high = digit(slices::parts::byte_at(rest, 1));
            let low = digit(slices::parts::byte_at(rest, 2));
            let behind = if slices::parts::byte_at(rest, 0) == b'x' {
                3
            } else {
                1
            };
            Some((high * 16 + low, slices::parts::rest(rest, behind)))
        }
        [b, rest @ ..] => Some((*b, rest)),
    }
}

// The bytes that a field tells. A loop: `successors` with `collect` was tried, and has no proof, since the library takes `successors` to be endless.
pub(crate) fn bytes(field: &[u8]) -> Told {
    let mut told = Told::new();
    let mut left = field;
    while let Some((b, rest)) = first_byte(left) {
        if told.try_push(b).is_err() {
            return told;
        }
        left = rest;
    }
    told
}
