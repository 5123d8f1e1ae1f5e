// Decimal values in text: one value read at a position, one value written at a position.
//
//   byte_at        a byte, 0 beyond the end
//   value          the value that stands at a position, and the position behind it
//   value_behind   the same behind a byte
//   starts         whether given bytes stand at a position
//   put_byte       writes a byte
//   put_bytes      writes given bytes
//   width          the number of digits of a value
//   put_value      writes a value
#![tactic(auto)]

ghost use Rattle.std.specs.Prelude.{◌≡◌, ◌↔◌, true, [], ◌∷◌, ◌+◌, ◌%◌, ◌<◌, ◌≤◌, get_or, length};
ghost use Rattle.definitions.specs.Text.{decimal};
ghost use Rattle.text.specs.Reading.{DigitAt, ReadAt, StartsAt};
ghost use Rattle.text.specs.Writing.{Wrote};

// The byte at a position, and 0 beyond the end.
pub fn byte_at(text: &[u8], at: usize) -> u8
    ensures { result ≡ get_or text.now at 0 }
{
    text.get(at).copied().unwrap_or(0)
}

// The digit at a position.
fn digit_at(text: &[u8], at: usize) -> Option<u32>
    ensures { DigitAt text.now at result }
{
    match byte_at(text, at) {
        b @ b'0'..=b'9' => Some(u32::from(b - b'0')),
        _ => None,
    }
}

// The value at a position, by its whole run of digits, and the position behind the last. It has at most nine digits, and no leading
// zero. The loop tests bytes: an `Option` for each digit would select a value for None, too.
pub fn value(text: &[u8], at: usize) -> Option<(u32, usize)>
    ensures { ReadAt [] text.now at result }
{
    let mut v = digit_at(text, at)?;
    let mut next = at + 1;
    while byte_at(text, next).is_ascii_digit() {
        if v == 0 || 99999999 < v {
            return None;
        }
        v = v * 10 + u32::from(byte_at(text, next) - b'0');
        next += 1;
    }
    Some((v, next))
}

// The value behind the byte b.
pub fn value_behind(text: &[u8], at: usize, b: u8) -> Option<(u32, usize)>
    requires { 0 < b }
    ensures { ReadAt (b ∷ []) text.now at result }
{
    if byte_at(text, at) != b {
        return None;
    }
    value(text, at + 1)
}

// Whether the bytes of s stand at a position.
pub fn starts(text: &[u8], at: usize, s: &[u8]) -> bool
    requires { at ≤ length text.now }
    ensures { (result ≡ true) ↔ StartsAt text.now at s.now }
{
    text[at..].starts_with(s)
}

// Writes a byte, and returns the position behind it.
pub fn put_byte(out: &mut [u8], at: usize, b: u8) -> usize
    requires { at < length out.old }
    ensures { Wrote out.old at (b ∷ []) out.new result }
{
    out[at] = b;
    at + 1
}

// The last digit of a value, as a byte.
fn last_digit(v: u32) -> u8
    ensures { result ≡ 48 + v % 10 }
{
    (48 + v % 10) as u8
}

// The number of digits of a value.
pub fn width(v: u32) -> usize
    ensures { (result ≡ length (decimal v)) × (result ≤ 10) }
{
    if v < 10 {
        return 1;
    }
    width(v / 10) + 1
}

// Writes a value digit by digit, and returns the position behind it: std's printing wants a writer, and one over a lent buffer would
// have to say the same bytes.
pub fn put_value(out: &mut [u8], at: usize, v: u32) -> usize
    requires { at + length (decimal v) ≤ length out.old }
    ensures { Wrote out.old at (decimal v) out.new result }
{
    let d = last_digit(v);
    if v < 10 {
        return put_byte(out, at, d);
    }
    let next = put_value(out, at, v / 10);
    put_byte(out, next, d)
}

// Writes given bytes, and returns the position behind them.
pub fn put_bytes(out: &mut [u8], at: usize, s: &[u8]) -> usize
    requires { at + length s.now ≤ length out.old }
    ensures { Wrote out.old at s.now out.new result }
{
    let end = at + s.len();
    out[at..end].copy_from_slice(s);
    end
}
