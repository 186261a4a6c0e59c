// Masks of holders: 16 digits to the base 16, the highest first. All of it is internal.
ghost use Rattle.std.specs.Prelude.{◌≡◌, ◌^◌, ◌≤◌, ◌<◌, eqb, length, drop};
ghost use Rattle.text.specs.Put.{Room, Put};
ghost use Rattle.text.specs.Mask.{hex_digit, hex, hex_value, hex_of, mask_word, mask_at};

use crate::read::byte_at;

// The mask of a domain alone.
fn alone(domain: u32) -> u64
    requires { domain < 64 }
    ensures { result ≡ 2 ^ domain }
{
    1u64 << domain
}

// Whether a mask is that of its maker alone.
fn is_alone(maker: u32, mask: u64) -> bool
    ensures { result ≡ eqb mask (2 ^ maker) }
{
    maker < 64 && mask == alone(maker)
}

// The byte of a digit.
fn digit_byte(d: u8) -> u8
    requires { d < 16 }
    ensures { result ≡ hex_digit d }
{
    if d < 10 { b'0' + d } else { b'a' - 10 + d }
}

// What a byte is worth as a digit; 0 where it is none.
// So `hex_value` (text/specs/Mask) has it, and no `Option` is needed: a text with such a byte is refused where what is written back is compared.
fn digit_value(byte: u8) -> u8
    ensures { (result ≡ hex_value byte) × (result < 16) }
{
    match byte {
        b'0'..=b'9' => byte - b'0',
        b'a'..=b'f' => byte - b'a' + 10,
        _ => 0,
    }
}

// Writes the 16 digits of a mask at a position, the last one first, and returns the position behind them.
pub fn put_digits(out: &mut [u8], at: usize, mask: u64) -> usize
    requires { Room out.old at (hex 16 mask) }
    ensures { Put out.old at (hex 16 mask) out.new result }
{
    let end = at + 16;
    let mut rest = mask;
    for place in (at..end).rev() {
        out[place] = digit_byte((rest % 16) as u8);
        rest /= 16;
    }
    end
}

// Writes a mask at a position, with a space before it, and returns the position behind it; nothing where it is the maker alone.
pub(crate) fn put_mask(out: &mut [u8], at: usize, maker: u32, mask: u64) -> usize
    requires { Room out.old at (mask_word maker mask) }
    ensures { Put out.old at (mask_word maker mask) out.new result }
{
    if is_alone(maker, mask) {
        return at;
    }
    out[at] = b' ';
    put_digits(out, at + 1, mask)
}

// How many bytes `put_mask` writes.
pub(crate) fn mask_length(maker: u32, mask: u64) -> usize
    ensures { (result ≡ length (mask_word maker mask)) × (result ≤ 17) }
{
    if is_alone(maker, mask) { 0 } else { 17 }
}

// The mask that the 16 digits at the front of a text spell.
pub fn digits_of(text: &[u8]) -> u64
    ensures { result ≡ hex_of text.now }
{
    let mut value: u64 = 0;
    for byte in &text[..text.len().min(16)] {
        value = value * 16 + digit_value(*byte) as u64;
    }
    value
}

// The same from a place of the text on.
pub(crate) fn digits_at(text: &[u8], at: usize) -> u64
    ensures { result ≡ hex_of (drop at text.now) }
{
    if at < text.len() {
        digits_of(&text[at..])
    } else {
        0
    }
}

// The mask at a place of the text: where a space stands there, the 16 digits behind it, and else the maker alone.
pub(crate) fn mask_at(maker: u32, text: &[u8], index: usize) -> u64
    requires { (maker < 64) × (index < 100) }
    ensures { result ≡ mask_at maker text.now index }
{
    if byte_at(text, index) == b' ' {
        digits_at(text, index + 1)
    } else {
        alone(maker)
    }
}
