// The first sections of a case file: profile, weekday and means; and the weights that they give (Case file).
ghost use Rattle.std.specs.Prelude.{◌≡◌, ◌+◌, ◌-◌, ◌≤◌, length, replicate};
ghost use Rattle.profile.specs.Limits.{span_most};
ghost use Rattle.weights.specs.Weights.{weights_of};
ghost use Rattle.casefile.specs.Bytes.{byte, number16, signed16};
ghost use Rattle.casefile.specs.Case.{end_at};
ghost use Rattle.casefile.specs.Faults.{first_bytes_fault, means_count_fault};
ghost use Rattle.casefile.specs.Sections.{Reached, MeansStand, Weighable, means_fault_at, value_fault};

use crate::bytes::{number16, signed16};
use crate::reader::{Reader, fault};
use common::{Fault, Refusal};
use profile::Profile;

impl Reader<'_> {
    // Profile and weekday.
    pub(crate) fn first_bytes(&mut self) -> Result<(u8, u8), Fault>
        ensures same { self.new.file ≡ self.old.file }
        ensures reached { Reached (first_bytes_fault self.old.file.now self.old.at) (self.old.at + 2) self.new.at (λ day. (day.0 ≡ byte self.old.file.now self.old.at) × (day.1 ≡ byte self.old.file.now (self.old.at + 1))) result }
    {
        let place = self.pass(1)?;
        let profile = self.file[place];
        if Profile::COUNT <= profile {
            return Err(fault(Refusal::NoProfile, place));
        }
        let place = self.pass(1)?;
        let weekday = self.file[place];
        if 6 < weekday {
            return Err(fault(Refusal::NoWeekday, place));
        }
        Ok((profile, weekday))
    }

    // The count of means.
    fn means_count(&mut self) -> Result<usize, Fault>
        ensures same { self.new.file ≡ self.old.file }
        ensures reached { Reached (means_count_fault self.old.file.now self.old.at) (self.old.at + 2) self.new.at (λ count. count ≡ number16 self.old.file.now self.old.at) result }
    {
        let place = self.pass(2)?;
        let count = number16(self.file, place);
        if count < Profile::SPAN_LEAST + 3 || Profile::SPAN_MOST + 3 < count {
            return Err(fault(Refusal::Unfit, place));
        }
        Ok(count)
    }

    fn mean(&mut self) -> Result<i16, Fault>
        ensures same { self.new.file ≡ self.old.file }
        ensures reached { Reached (value_fault self.old.file.now self.old.at) (self.old.at + 2) self.new.at (λ mean. mean ≡ signed16 self.old.file.now self.old.at) result }
    {
        let place = self.pass(2)?;
        let mean = signed16(self.file, place);
        if !profile::in_range(mean) {
            return Err(fault(Refusal::OutOfRange, place));
        }
        Ok(mean)
    }

    // The means into a buffer; it gives the number of days.
    pub(crate) fn means(&mut self, means: &mut [i16]) -> Result<usize, Fault>
        requires { length means.old ≡ span_most + 3 }
        ensures same { self.new.file ≡ self.old.file }
        ensures reached { Reached (means_fault_at self.old.file.now self.old.at) (end_at 2 self.old.file.now self.old.at) self.new.at (MeansStand self.old.file.now self.old.at means.new) result }
    {
        let count = self.means_count()?;
        for mean in means[..count].iter_mut() {
            *mean = self.mean()?;
        }
        Ok(count - 3)
    }
}

// The weights of a span whose days count as their own weekdays.
pub(crate) fn weigh(profile: u8, weekday: u8, means: &[i16], weights: &mut [u32])
    requires { Weighable profile weekday means.now weights.old }
    ensures { weights.new ≡ weights_of profile weekday means.now (replicate (length weights.old) 7) }
{
    let own = [7u8; Profile::SPAN_MOST];
    let _ = weights::weights(profile, weekday, means, &own[..weights.len()], weights);
}
