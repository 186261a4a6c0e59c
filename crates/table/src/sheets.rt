// The lent sheet: a byte for each combination of a holder's kind, an access, and where the access comes from. Only these functions know
// the layout.
ghost use Rattle.std.specs.Prelude.{◌≡◌, ◌≤◌, ◌<◌, length};
ghost use Rattle.model.specs.Strike.{result_of};
ghost use Rattle.table.specs.Sheets.{access_number, origin_number, holder_number, place_of, weight, with_results, with_conflicts, bytes_of, bytes6, sheet_in, sheet_lent};

use crate::SheetBytes;
use model::{Access, Conflicts, Effect, Origin, Results, Sheet};
use std::array;

// The kind is a number here, in `place_of` and in `result_at`: the word of a row (`Cap`).
fn holder_number(kind: u32) -> usize
    ensures { (result ≡ holder_number kind) × (result ≤ 2) }
{
    match kind {
        0 => 0,
        1 => 1,
        _ => 2,
    }
}

fn access_number(a: Access) -> usize
    ensures { (result ≡ access_number a) × (result ≤ 1) }
{
    match a {
        Access::Reading => 0,
        Access::Writing => 1,
    }
}

fn origin_number(from: Origin) -> usize
    ensures { (result ≡ origin_number from) × (result ≤ 2) }
{
    match from {
        Origin::Cell => 0,
        Origin::Kin => 1,
        Origin::Stranger => 2,
    }
}

// Where a combination stands.
fn place_of(kind: u32, a: Access, from: Origin) -> usize
    ensures { (result ≡ place_of kind a from) × (result < 18) }
{
    holder_number(kind) * 6 + access_number(a) * 3 + origin_number(from)
}

// What a sheet gives a holder of a kind: 0 keep, 1 lower, 2 end.
pub fn result_at(sheet: &SheetBytes, kind: u32, a: Access, from: Origin) -> u8
    ensures { result ≡ weight (result_of (sheet_in sheet.now) kind a from) }
{
    sheet[place_of(kind, a, from)].min(2)
}

// The sheet of card 6.
pub fn card6() -> SheetBytes
    ensures { result ≡ bytes6 }
{
    [1, 1, 1, 0, 2, 2, 0, 0, 0, 0, 0, 2, 1, 1, 1, 0, 2, 2]
}

fn effect_number(e: Effect) -> u8
    ensures { result ≡ weight e }
{
    match e {
        Effect::Keep => 0,
        Effect::Lower => 1,
        Effect::End => 2,
    }
}

// Puts three results from a place on.
fn set_results(bytes: &mut SheetBytes, place: usize, r: Results)
    requires { (place ≤ 15) × (length bytes.old ≡ 18) }
    ensures { bytes.new ≡ with_results bytes.old place r }
{
    let cell = r.cell;
    let kin = r.kin;
    let stranger = r.stranger;
    bytes[place] = effect_number(cell);
    bytes[place + 1] = effect_number(kin);
    bytes[place + 2] = effect_number(stranger);
}

// Puts the results of both accesses from a place on.
fn set_conflicts(bytes: &mut SheetBytes, place: usize, c: Conflicts)
    requires { (place ≤ 12) × (length bytes.old ≡ 18) }
    ensures { bytes.new ≡ with_conflicts bytes.old place c }
{
    let read = c.read;
    let write = c.write;
    set_results(bytes, place, read);
    set_results(bytes, place + 3, write);
}

// The bytes of a sheet.
pub fn bytes_of(sheet: Sheet) -> SheetBytes
    ensures { result ≡ bytes_of sheet }
{
    let reference = sheet.reference;
    let raw = sheet.raw;
    let cell = sheet.cell;
    let mut bytes = [0u8; 18];
    set_conflicts(&mut bytes, 0, reference);
    set_conflicts(&mut bytes, 6, raw);
    set_conflicts(&mut bytes, 12, cell);
    bytes
}

// The sheet that is lent, card 6's where no byte is; a byte that is missing is `end`.
pub fn sheet_lent(lent: &[u8]) -> SheetBytes
    ensures { sheet_in result ≡ sheet_lent lent.now }
{
    if lent.len() == 0 {
        return card6();
    }
    array::from_fn(|i| lent.get(i).copied().unwrap_or(2))
}
