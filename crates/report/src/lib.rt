// The text of a case file: its statement or its refusal (Case file, the program's output).
#![tactic(auto)]

mod read;

ghost use Rattle.std.specs.Prelude.{◌≡◌};
ghost use Rattle.account.specs.Account.{account};
ghost use Rattle.casefile.specs.Length.{bytes_read};
ghost use Rattle.report.specs.Report.{CaseTextMet};

use casefile::read_case;
use layout::{account_text, refusal_text};
pub use read::read_full;

// Reading no more of a file than this never changes the verdict.
pub const BYTES_READ: usize = 16_384;

// The text of a case file, which is read into slices of lengths 1,096, 1,097 and 1,097: its statement or its refusal, at the start of out.
// Kept: three slices to be written, as the paper has it.
pub fn case_text(
    file: &[u8],
    weights: &mut [u32],
    marks: &mut [u8],
    counts: &mut [u64],
    out: &mut [u8],
) -> usize
    ensures case_text_met { CaseTextMet file.now (account weights.old marks.old counts.old) out.old result (account weights.new marks.new counts.new) out.new file.now }
    ensures bytes_read_value { BYTES_READ ≡ bytes_read }
{
    match read_case(file, weights, marks, counts) {
        Ok(days) => {
            let boundaries = days + 1;
            account_text(
                &weights[..days],
                &marks[..boundaries],
                &counts[..boundaries],
                out,
            )
        }
        Err(fault) => refusal_text(fault.refusal.number(), fault.place, out),
    }
}
