// The words of a sheet's lines by their numbers.
ghost use Rattle.std.specs.Prelude.{◌≡◌, ◌≤◌, map, length};
ghost use Rattle.sheet.specs.Words.{result_words, ending, number_among};
ghost use Rattle.sheet.specs.Reading.{code_among, word_code, words_for};

// The lists that a bracket's words are taken from.
#[derive(Clone, Copy)]
pub enum Bracket {
    Holder,
    Access,
    From,
}

// The place of a word among others, from 0; how many they are where it is none of them. Inlined, as `code_among` is, so that the compiler knows the words
// that are compared with.
#[inline(always)]
fn number_among(words: &[&[u8]], word: &[u8]) -> usize
    ensures { (result ≡ number_among (map (λ w. w.now) words.now) word.now) × (result ≤ length words.now) }
{
    words
        .iter()
        .position(|own| word == *own)
        .unwrap_or(words.len())
}

// A word's place among those behind which a bracket goes on, 3 more among those that close it, 6 for any other.
#[inline(always)]
fn code_among(inside: &[&[u8]], closing: &[&[u8]], word: &[u8]) -> u8
    requires { (length inside.now ≤ 3) × (length closing.now ≤ 3) }
    ensures { result ≡ code_among (map (λ w. w.now) inside.now) (map (λ w. w.now) closing.now) word.now }
{
    let going_on = number_among(inside, word);
    if going_on < inside.len() {
        return going_on as u8;
    }
    let last = number_among(closing, word);
    if last < closing.len() {
        3 + last as u8
    } else {
        6
    }
}

// A word of a bracket: 0 to 2 where the bracket goes on behind it, 3 to 5 where it closes, 6 for any other.
pub fn word_code(bracket: Bracket, word: &[u8]) -> u8
    ensures { result ≡ word_code (words_for bracket) word.now }
{
    match bracket {
        Bracket::Holder => code_among(
            &[b"reference ", b"raw ", b"cell "],
            &[b"reference) ", b"raw) ", b"cell) "],
            word,
        ),
        Bracket::Access => { code_among(&[b"read ", b"write "], &[b"read) ", b"write) "], word) }
        Bracket::From => code_among(
            &[b"cell ", b"kin ", b"stranger "],
            &[b"cell) ", b"kin) ", b"stranger) "],
            word,
        ),
    }
}

// A line's last word; 3 for any other.
pub fn result_number(word: &[u8]) -> u8
    ensures { result ≡ number_among (ending result_words) word.now }
{
    number_among(&[b"keep)\n", b"lower)\n", b"end)\n"], word) as u8
}
