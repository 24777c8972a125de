// The readings of a case file, into marks and counts (Case file).
ghost use Rattle.std.specs.Prelude.{◌≡◌, ◌+◌, ◌≤◌, length};
ghost use Rattle.profile.specs.Limits.{span_most};
ghost use Rattle.casefile.specs.Bytes.{number64};
ghost use Rattle.casefile.specs.Case.{end_at};
ghost use Rattle.casefile.specs.Faults.{readings_fault_at};
ghost use Rattle.casefile.specs.Sections.{Reached, Clear, ReadingRead, ReadingsPut, item_fault};

use crate::bytes::number64;
use crate::reader::{Reader, fault};
use account::ENERGY_MOST;
use common::{Fault, Refusal};

#[derive(Clone, Copy)]
pub(crate) struct Reading {
    pub(crate) boundary: usize,
    pub(crate) count: u64,
}

impl Reader<'_> {
    // One reading. `first` and `last` are the counts of the first reading and the one before.
    fn reading(&mut self, low: usize, days: usize, first: u64, last: u64) -> Result<Reading, Fault>
        requires { first ≤ last }
        ensures same { self.new.file ≡ self.old.file }
        ensures reached { Reached (item_fault self.old.file.now self.old.at low days first last) (self.old.at + 10) self.new.at (ReadingRead self.old.file.now self.old.at days last) result }
    {
        let place = self.at + 2;
        let boundary = self.boundary(10, low, days)?;
        let count = number64(self.file, place);
        if count < last {
            return Err(fault(Refusal::OutOfOrder, place));
        }
        if ENERGY_MOST < count - first {
            return Err(fault(Refusal::TooMuch, place));
        }
        Ok(Reading { boundary, count })
    }

    // The count of the first reading; 0 where the file ends within it.
    fn first_count(&self) -> u64
        ensures { self.now.at + 10 ≤ length self.now.file.now → result ≡ number64 self.now.file.now (self.now.at + 2) }
    {
        if self.file.len() - self.at < 10 {
            return 0;
        }
        number64(self.file, self.at + 2)
    }

    // The readings of a span of so many days.
    pub(crate) fn readings(
        &mut self,
        days: usize,
        marks: &mut [u8],
        counts: &mut [u64],
    ) -> Result<(), Fault>
        requires span { days ≤ span_most }
        requires marks { Clear (span_most + 1) marks.old }
        requires counts { length counts.old ≡ span_most + 1 }
        ensures same { self.new.file ≡ self.old.file }
        ensures reached { Reached (readings_fault_at self.old.file.now self.old.at days) (end_at 10 self.old.file.now self.old.at) self.new.at (λ _. ReadingsPut self.old.file.now self.old.at marks.old counts.old marks.new counts.new) result }
    {
        let count = self.count()?;
        let first = self.first_count();
        let mut last = first;
        let mut low = 0;
        for _ in 0..count {
            let reading = self.reading(low, days, first, last)?;
            marks[reading.boundary] = 2;
            counts[reading.boundary] = reading.count;
            low = reading.boundary + 1;
            last = reading.count;
        }
        Ok(())
    }
}
