// "A listing reads as a form holding a run of forms, to depth 64": two functions that call each other, and never deeper than
// the forms are. The time is linear in the text. Nothing is refused here: what was read is judged afterwards, by writing it back.
ghost use Rattle.std.specs.Prelude.{◌≡◌, [], ◌∷◌, ℕ, suc, ◌+◌, ◌-◌, ◌*◌, ◌≤◌, ◌<◌, length, drop};
ghost use Rattle.listing.specs.Forms.{children_text, row_of, follows, read_form, read_run, read_lines};
ghost use Rattle.listing.specs.Stored.{Reads, newest, Stored};

use model::{Addr, Cap, Name};
use table::{Row, words};
use text::{masks, numbers, pieces, read};

// How many bytes of the text are left, and how many rows were stored.
#[derive(Clone, Copy)]
pub struct Place {
    pub left: usize,
    pub count: usize,
}

// Stores a row behind the others, and returns how many there are now.
fn add_row(table: &mut [Row; 1024], count: usize, row: Cap) -> usize
    requires { Stored table.old count × (count < 1024) }
    ensures { (result ≡ suc count) × Stored table.new result × (newest table.new result ≡ row ∷ newest table.old count) }
{
    words::set_row(table, count, row);
    count + 1
}

// The text behind its first bytes.
pub(crate) fn past(text: &[u8], count: usize) -> &[u8]
    ensures { result.now ≡ drop count text.now }
{
    &text[count.min(text.len())..]
}

// The last bytes of the text.
fn last(text: &[u8], count: usize) -> &[u8]
    requires { count ≤ length text.now }
    ensures { result.now ≡ drop (length text.now - count) text.now }
{
    past(text, text.len() - count)
}

// The head of a form: its row, and how many bytes are left behind its mask of holders.
#[derive(Clone, Copy)]
pub struct Head {
    pub row: Cap,
    pub left: usize,
}

// Reads the row that a form's words spell, up to the text of its children.
fn head_of(text: &[u8], parent: u32, depth: u32) -> Head
    ensures { (result.row ≡ row_of text.now parent depth) × (result.left ≤ length text.now)
        × (drop (length text.now - result.left) text.now ≡ children_text text.now) }
{
    let name_text = past(text, 1);
    let name = numbers::read_word(name_text);
    let start_text = past(name_text, name.end);
    let start = numbers::read_word(start_text);
    let length_text = past(start_text, start.end);
    let length = numbers::read_word(length_text);
    let right_text = past(length_text, length.end);
    let kind = read::kind_of(right_text) as u32;
    let past_kind = pieces::kind_length(kind);
    let fresh = read::fresh_at(right_text, 4 + past_kind) as u32;
    let maker_text = past(right_text, 3 + past_kind + pieces::fresh_length(fresh));
    let maker = numbers::read_word(maker_text);
    let mask_text = past(maker_text, maker.end);
    let row = Cap {
        name: Name(name.value),
        parent: Name(parent),
        start: Addr(start.value),
        length: length.value,
        right: read::right_of(right_text) as u32,
        depth,
        kind,
        fresh,
        maker: maker.value,
        holders: masks::digits_of(mask_text),
    };
    let children = past(mask_text, 16);
    Head {
        row,
        left: children.len(),
    }
}

// Whether a child follows: the depth and the table allow one, and the text goes on with a space.
fn child_follows(text: &[u8], count: usize, depth: u32) -> bool
    ensures { result ≡ follows text.now count depth }
{
    if depth < 64 {
        if count < 1024 {
            return read::byte_at(text, 0) == b' ';
        }
    }
    false
}

// Reads a form: its row, its run of children, and its closing bracket.
#[cycle(read_form_read_run)]
fn read_form(text: &[u8], table: &mut [Row; 1024], count: usize, parent: u32, depth: u32) -> Place
    requires { Stored table.old count × (count < 1024) }
    ensures { (count < result.count) × Stored table.new result.count
        × Reads (λ (k : ℕ). read_form k parent depth (record { rest = text.now; rows = newest table.old count })) (2 * length text.now + 1) text.now result.left (newest table.new result.count) }
{
    let head = head_of(text, parent, depth);
    let row = head.row;
    let name = row.name.0;
    let stored = add_row(table, count, row);
    let behind = head.left;
    let children = last(text, behind);
    let inner = read_run(children, table, stored, name, depth);
    let left = inner.left;
    let rest = past(last(children, left), 1);
    Place {
        left: rest.len(),
        count: inner.count,
    }
}

// Reads a run of forms, each behind a space: a turn for each sibling, a call for each depth.
#[cycle(read_form_read_run)]
fn read_run(text: &[u8], table: &mut [Row; 1024], count: usize, parent: u32, depth: u32) -> Place
    requires { Stored table.old count }
    ensures { (count ≤ result.count) × Stored table.new result.count
        × Reads (λ (k : ℕ). read_run k parent depth (record { rest = text.now; rows = newest table.old count })) (2 * length text.now) text.now result.left (newest table.new result.count) }
{
    let mut left = text.len();
    let mut stored = count;
    while child_follows(last(text, left), stored, depth) {
        let child = past(last(text, left), 1);
        let read = read_form(child, table, stored, parent, depth + 1);
        left = read.left;
        stored = read.count;
    }
    Place {
        left,
        count: stored,
    }
}

// Reads the lines of the roots into a table of zeros, and returns how many rows were stored.
pub(crate) fn read_lines(text: &[u8], table: &mut [Row; 1024]) -> usize
    requires { Stored table.old 0 }
    ensures { Stored table.new result × (newest table.new result ≡ read_lines 1024 (record { rest = text.now; rows = [] })) }
{
    let mut left = text.len();
    let mut count = 0;
    while 0 < left {
        if 1024 <= count {
            return count;
        }
        let line = read_form(last(text, left), table, count, 0, 1);
        left = line.left.saturating_sub(1);
        count = line.count;
    }
    count
}
