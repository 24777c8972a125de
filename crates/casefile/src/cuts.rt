// The cuts of a case file, into the marks (Case file).
ghost use Rattle.std.specs.Prelude.{◌≡◌, true, ◌+◌, ◌≤◌, length};
ghost use Rattle.profile.specs.Limits.{span_most};
ghost use Rattle.account.specs.Account.{marks_reading, mark_of};
ghost use Rattle.casefile.specs.Case.{end_at};
ghost use Rattle.casefile.specs.Faults.{cuts_fault_at};
ghost use Rattle.casefile.specs.Sections.{Reached, CutsPut};

use crate::reader::Reader;
use account::is_reading;
use common::Fault;

// The mark with a cut: 1, or 3 where a reading is.
fn with_cut(mark: u8) -> u8
    ensures { result ≡ mark_of (marks_reading mark) true }
{
    if is_reading(mark) { 3 } else { 1 }
}

impl Reader<'_> {
    // The cuts of a span of so many days.
    pub(crate) fn cuts(&mut self, days: usize, marks: &mut [u8]) -> Result<(), Fault>
        requires span { days ≤ span_most }
        requires marks { length marks.old ≡ span_most + 1 }
        ensures same { self.new.file ≡ self.old.file }
        ensures reached { Reached (cuts_fault_at self.old.file.now self.old.at days) (end_at 2 self.old.file.now self.old.at) self.new.at (λ _. CutsPut self.old.file.now self.old.at marks.old marks.new) result }
    {
        let count = self.count()?;
        let mut low = 0;
        for _ in 0..count {
            let boundary = self.boundary(2, low, days)?;
            marks[boundary] = with_cut(marks[boundary]);
            low = boundary + 1;
        }
        Ok(())
    }
}
