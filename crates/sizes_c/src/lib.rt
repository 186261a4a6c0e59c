// The call of `sizes` as C calls it: it is the library's of its name, and promises the same.
#![tactic(auto)]

ghost use Rattle.std.specs.Prelude.{◌≡◌};
ghost use Rattle.sizes.specs.Report.{sizing, report_words, packed_report};

// The report on clients' texts in four words: the refusal, the rows, the client and the line, with 0 for what it lacks. The answer is the rows,
// or the refusal.
#[unsafe(no_mangle)]
pub extern "C" fn kz_abi_sizes(text: &[u8], lengths: &[u32], report: &mut [u32; 4]) -> u64
    ensures { (report.new ≡ report_words (sizing text.now lengths.now))
        × (result ≡ packed_report (sizing text.now lengths.now)) }
{
    sizes::kz_abi_sizes(text, lengths, report)
}
