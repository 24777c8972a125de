// The sections of a case file, written where the reader has them (K2, Case file).
ghost use Rattle.std.specs.Prelude.{◌≡◌, cond, [], ◌+◌, ◌*◌, ◌≤◌, length};
ghost use Rattle.std.proofs.lemmas.List.Edits.{sets};
ghost use Rattle.profile.specs.Limits.{span_most};
ghost use Rattle.account.specs.Account.{marks_reading, marks_cut};
ghost use Rattle.casewriter.specs.File.{reading_bytes, cut_item, means_section, file_of};
ghost use Rattle.casewriter.specs.Sections.{marked_in, file_end, ItemsFit, both_stored, FileFits, ItemPut};

use crate::bytes::{number, twos};
use account::{is_cut, is_reading};

// How many readings and cuts an account has.
#[derive(Clone, Copy)]
pub(crate) struct Marked {
    pub(crate) readings: usize,
    pub(crate) cuts: usize,
}

// Kept one loop: a chain of `filter` and `count` for each takes 1.6 times as long.
pub(crate) fn count_marks(marks: &[u8]) -> Marked
    ensures { result ≡ marked_in marks.now }
{
    let mut readings = 0;
    let mut cuts = 0;
    for mark in marks {
        readings += usize::from(is_reading(*mark));
        cuts += usize::from(is_cut(*mark));
    }
    Marked { readings, cuts }
}

// Where a file of so many means, readings and cuts ends.
pub(crate) fn file_end(means: usize, m: Marked) -> usize
    requires { (means ≤ span_most + 3) × (m.readings ≤ span_most + 1) × (m.cuts ≤ span_most + 1) }
    ensures { result ≡ file_end means m }
{
    8 + 2 * means + 10 * m.readings + 2 * m.cuts
}

// Stores the means' section from an offset on.
fn means_into(out: &mut [u8], at: usize, means: &[i16])
    requires { at + 2 + 2 * length means.now ≤ length out.old }
    ensures { out.new ≡ sets out.old at (means_section means.now) }
{
    number(out, at, 2, means.len() as u64);
    for (i, mean) in means.iter().enumerate() {
        number(out, at + 2 + 2 * i, 2, twos(*mean));
    }
}

// Stores the item of a boundary's reading at an offset, if its mark has a reading. Returns the offset after it.
fn reading_into(out: &mut [u8], at: usize, mark: u8, k: usize, count: u64) -> usize
    requires { at + length (cond (marks_reading mark) (reading_bytes k count) []) ≤ length out.old }
    ensures { ItemPut at (cond (marks_reading mark) (reading_bytes k count) []) out.old result out.new }
{
    if is_reading(mark) {
        number(out, at, 2, k as u64);
        number(out, at + 2, 8, count);
        return at + 10;
    }
    at
}

// Stores the item of a boundary's cut, likewise.
// Kept apart: this item is one number and a reading's is two, so that one function for both would be no plainer.
fn cut_into(out: &mut [u8], at: usize, mark: u8, k: usize) -> usize
    requires { at + length (cond (marks_cut mark) (cut_item k) []) ≤ length out.old }
    ensures { ItemPut at (cond (marks_cut mark) (cut_item k) []) out.old result out.new }
{
    if is_cut(mark) {
        number(out, at, 2, k as u64);
        return at + 2;
    }
    at
}

// Stores the items of the readings from the offset `reading` on, and those of the cuts from `cut` on, in one pass.
fn items_into(out: &mut [u8], reading: usize, cut: usize, marks: &[u8], counts: &[u64])
    requires { ItemsFit marks.now counts.now out.old reading cut }
    ensures { out.new ≡ both_stored marks.now counts.now out.old reading cut (length marks.now) }
{
    let mut r = reading;
    let mut c = cut;
    for (k, (mark, count)) in marks.iter().zip(counts).enumerate() {
        r = reading_into(out, r, *mark, k, *count);
        c = cut_into(out, c, *mark, k);
    }
}

// Stores the whole file from the start of out.
// Kept: marks and counts without weights are two slices, and a view of two would be no plainer.
pub(crate) fn fill(
    profile: u8,
    weekday: u8,
    means: &[i16],
    marks: &[u8],
    counts: &[u64],
    m: Marked,
    out: &mut [u8],
)
    requires { FileFits means.now marks.now counts.now out.old m }
    ensures { out.new ≡ sets out.old 0 (file_of profile weekday means.now marks.now counts.now) }
{
    out[0] = profile;
    out[1] = weekday;
    means_into(out, 2, means);
    let readings_at = 4 + 2 * means.len();
    let cuts_at = readings_at + 2 + 10 * m.readings;
    number(out, readings_at, 2, m.readings as u64);
    number(out, cuts_at, 2, m.cuts as u64);
    items_into(out, readings_at + 2, cuts_at + 2, marks, counts);
}
