// The list of lengths, and where the clients' texts stand.
ghost use Rattle.std.specs.Prelude.{◌≡◌, ◌≤◌, length};
ghost use Rattle.model.specs.Limits.{sum};
ghost use Rattle.sizes.specs.Report.{fits};
ghost use Rattle.sizes.specs.Rounds.{Laid};

// The sum of at most 8 lengths, in 64 bits.
fn sum_of(lengths: &[u32]) -> usize
    requires { length lengths.now ≤ 8 }
    ensures { result ≡ sum lengths.now }
{
    lengths.iter().map(|length| *length as usize).sum()
}

// Whether there are at most 8 lengths, and their sum is the text's.
pub fn do_fit(text: &[u8], lengths: &[u32]) -> bool
    ensures { result ≡ fits text.now lengths.now }
{
    lengths.len() <= 8 && sum_of(lengths) == text.len()
}

// Where each text begins and ends, of at most 8 that stand end to end.
pub fn lay_out(lengths: &[u32], at: &mut [usize; 8], ends: &mut [usize; 8])
    requires { (length lengths.now ≤ 8) × (length at.old ≡ 8) × (length ends.old ≡ 8) }
    ensures { Laid lengths.now at.new ends.new }
{
    let mut place: usize = 0;
    for (k, length) in lengths.iter().enumerate() {
        at[k] = place;
        place += *length as usize;
        ends[k] = place;
    }
}
