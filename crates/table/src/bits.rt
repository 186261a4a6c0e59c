// The written bits that are lent: one for each address below 65,536. Inside a span whole bytes are looked at and set at once, and at its two
// ends, where a byte is in it only in part, one address after the other.
ghost use Rattle.std.specs.Prelude.{◌≡◌, ◌<◌, ◌≤◌, ◌-◌, ◌*◌, min};
ghost use Rattle.model.specs.Values;
ghost use Rattle.model.specs.Bits.{has_bit, with_bit, bit_at, put_from, low_length, all_written, span_written};
ghost use Rattle.table.specs.Known.{Sized};
ghost use Rattle.table.specs.Bytes.{with_bits};

use crate::spans::end;
use model::Span;

// Whether a byte has this bit.
fn has_bit(b: u8, j: usize) -> bool
    requires { j < 8 }
    ensures { result ≡ has_bit b j }
{
    (b >> j) % 2 == 1
}

// The byte with this bit so.
fn with_bit(v: bool, j: usize, b: u8) -> u8
    requires { j < 8 }
    ensures { result ≡ with_bit v j b }
{
    if has_bit(b, j) == v {
        return b;
    }
    let worth = 1u8 << j;
    if v { b + worth } else { b - worth }
}

// Whether a byte has all its bits.
fn is_full(b: u8) -> bool
    ensures { result ≡ all_written (has_bit b) 0 8 }
{
    b == 255
}

// The byte with all its bits so, whatever it was.
fn filled(v: bool, _b: u8) -> u8
    ensures { result ≡ with_bits v 8 _b }
{
    if v { 255 } else { 0 }
}

// Whether the addresses are written, one after the other.
fn some_written(bits: &[u8], from: usize, to: usize) -> bool
    requires { Sized bits.now × (from ≤ to) × (to ≤ 65536) }
    ensures { result ≡ all_written (bit_at bits.now) from (to - from) }
{
    (from..to).all(|a| has_bit(bits[a / 8], a % 8))
}

// The same of whole bytes. All of them are looked at, with no way out on the way, so that the compiler takes many at once.
// (A `fold` was tried, and is slower.)
fn bytes_written(bits: &[u8], from: usize, to: usize) -> bool
    requires { Sized bits.now × (from ≤ to) × (to ≤ 8192) }
    ensures { result ≡ all_written (bit_at bits.now) (from * 8) ((to - from) * 8) }
{
    let mut full = true;
    for i in from..to {
        if !is_full(bits[i]) {
            full = false;
        }
    }
    full
}

// Sets the addresses' bits, or clears them, one after the other.
fn put_some(bits: &mut [u8], v: bool, from: usize, to: usize)
    requires { Sized bits.old × (from ≤ to) × (to ≤ 65536) }
    ensures { bits.new ≡ put_from v from (to - from) bits.old }
{
    for a in from..to {
        let i = a / 8;
        bits[i] = with_bit(v, a % 8, bits[i]);
    }
}

// The same of whole bytes.
// (Tried with `fill`: the proof did not close, since after it nothing says that the bytes before were below 256.)
fn put_bytes(bits: &mut [u8], v: bool, from: usize, to: usize)
    requires { Sized bits.old × (from ≤ to) × (to ≤ 8192) }
    ensures { bits.new ≡ put_from v (from * 8) ((to - from) * 8) bits.old }
{
    for i in from..to {
        bits[i] = filled(v, bits[i]);
    }
}

// Whether every address of a span is written. Internal: the caller keeps the span below 65,536.
pub(crate) fn span_written(bits: &[u8], s: Span) -> bool
    requires { Sized bits.now × (Values.end s ≤ 65536) }
    ensures { result ≡ span_written (bit_at bits.now) s }
{
    let from = s.start.0 as usize;
    let to = end(s) as usize;
    let first = (from + 7) / 8;
    let last = to / 8;
    if last < first {
        return some_written(bits, from, to);
    }
    if !some_written(bits, from, first * 8) {
        return false;
    }
    if !bytes_written(bits, first, last) {
        return false;
    }
    some_written(bits, last * 8, to)
}

// The end of a span, and no more than 65,536.
fn low_end(s: Span) -> usize
    ensures { result ≡ min (Values.end s) 65536 }
{
    end(s).min(65536) as usize
}

// Sets the bit of each address of a span that is below 65,536, or clears it. Internal: the caller shows that there are as many bits as there
// are to be.
pub fn put_span(bits: &mut [u8], v: bool, s: Span)
    requires { Sized bits.old }
    ensures { bits.new ≡ put_from v s.start.0 (low_length s) bits.old }
{
    let from = s.start.0 as usize;
    let to = low_end(s);
    if to <= from {
        return;
    }
    let first = (from + 7) / 8;
    let last = to / 8;
    if last < first {
        put_some(bits, v, from, to);
        return;
    }
    put_some(bits, v, from, first * 8);
    put_bytes(bits, v, first, last);
    put_some(bits, v, last * 8, to);
}
