// What a create or borrow gives besides a span: whether it is refused in itself.
ghost use Rattle.std.specs.Prelude.{◌≡◌, not};
ghost use Rattle.model.specs.Refusals.{unfit_mask, unfit_root, unfit_child};

use crate::masks::{has_bit, is_domain};
use crate::ordered::{is_kind, is_mark, is_right};
use model::Terms;

// Whether this domain may give this mask of holders: it is a domain, and among them.
fn fit_mask(actor: u32, r: Terms) -> bool
    ensures { result ≡ not (unfit_mask actor r) }
{
    if !is_domain(actor) {
        return false;
    }
    has_bit(r.holders, actor)
}

// Whether a create may give this: a right, a mark or none, and a mask. It makes a reference.
pub fn fit_root(actor: u32, r: Terms) -> bool
    ensures { result ≡ not (unfit_root actor r) }
{
    if !is_right(r.right as u32) {
        return false;
    }
    if r.kind != 0 {
        return false;
    }
    if !is_mark(r.fresh as u32) {
        return false;
    }
    fit_mask(actor, r)
}

// Whether a borrow may give this: a right, a kind and a mask. Its mark is its parent's.
pub fn fit_child(actor: u32, r: Terms) -> bool
    ensures { result ≡ not (unfit_child actor r) }
{
    if !is_right(r.right as u32) {
        return false;
    }
    if !is_kind(r.kind as u32) {
        return false;
    }
    if r.fresh != 0 {
        return false;
    }
    fit_mask(actor, r)
}
