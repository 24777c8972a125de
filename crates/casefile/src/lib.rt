// The reader of case files (Case file): from the bytes of a file to the slices of an account.
#![tactic(auto)]

mod bytes;
mod cuts;
mod reader;
mod readings;
mod span;

ghost use Rattle.std.specs.Prelude.{◌≡◌};
ghost use Rattle.account.specs.Account.{account};
ghost use Rattle.common.specs.Placed.{number, place, value};
ghost use Rattle.casefile.specs.Reader.{ReadMet, all_zero};
ghost use Rattle.casefile.specs.Sections.{AllClear, FillMet};

use common::{Fault, Refusal};
use profile::Profile;
use reader::Reader;
use span::weigh;

// Reads a case file into the slices of an account, of lengths 1,096, 1,097 and 1,097; the rest is zero. Gives the number of days.
// Kept: three slices to be written, as the paper and C lend them.
pub fn read_case(
    file: &[u8],
    weights: &mut [u32],
    marks: &mut [u8],
    counts: &mut [u64],
) -> Result<usize, Fault>
    ensures { ReadMet file.now (account weights.old marks.old counts.old) (number result) (place result) (value result) (account weights.new marks.new counts.new) file.now }
{
    if weights.len() != Profile::SPAN_MOST
        || marks.len() != Profile::SPAN_MOST + 1
        || counts.len() != Profile::SPAN_MOST + 1
    {
        return Err(Refusal::Unfit.into());
    }
    clear(weights, marks, counts);
    let case = read_sections(file, weights, marks, counts);
    if case.is_err() {
        clear(weights, marks, counts);
    }
    case
}

// The sections of a file into cleared slices, and the weights of its means.
fn read_sections(
    file: &[u8],
    weights: &mut [u32],
    marks: &mut [u8],
    counts: &mut [u64],
) -> Result<usize, Fault>
    requires { AllClear (account weights.old marks.old counts.old) }
    ensures { FillMet file.now (account weights.new marks.new counts.new) result }
{
    let mut means = [0i16; Profile::SPAN_MOST + 3];
    let mut reader = Reader { file, at: 0 };
    let (profile, weekday) = reader.first_bytes()?;
    let days = reader.means(&mut means)?;
    reader.readings(days, marks, counts)?;
    reader.cuts(days, marks)?;
    reader.ended()?;
    weigh(profile, weekday, &means[..days + 3], &mut weights[..days]);
    Ok(days)
}

fn clear(weights: &mut [u32], marks: &mut [u8], counts: &mut [u64])
    ensures { account weights.new marks.new counts.new ≡ all_zero (account weights.old marks.old counts.old) }
{
    common::clear(weights);
    common::clear(marks);
    common::clear(counts);
}
