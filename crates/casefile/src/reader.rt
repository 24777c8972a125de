// The reader (Case file): it holds the file and its own position, and reads on from there.
ghost use Rattle.std.specs.Prelude.{◌≡◌, ◌+◌, ◌≤◌, length, ⊤};
ghost use Rattle.casefile.specs.Bytes.{number16};
ghost use Rattle.casefile.specs.Faults.{early, left_over};
ghost use Rattle.casefile.specs.Sections.{Reached, BoundaryRead, rising_fault};

use crate::bytes::number16;
use common::{Fault, Refusal};

// Kept: each method says that the file stays, since a `&mut` could exchange it.
#[derive(Drop)]
pub(crate) struct Reader<'a> {
    pub(crate) file: &'a [u8],
    pub(crate) at: usize,
    ghost within: { at ≤ length file.now },
}

// A refusal with its place.
pub(crate) fn fault(refusal: Refusal, place: usize) -> Fault
    ensures { result ≡ record { refusal = refusal; place = place } }
{
    Fault { refusal, place }
}

impl Reader<'_> {
    // Moves on over so many bytes, and gives the offset of the first of them.
    pub(crate) fn pass(&mut self, size: usize) -> Result<usize, Fault>
        ensures same { self.new.file ≡ self.old.file }
        ensures reached { Reached (early self.old.file.now (self.old.at + size)) (self.old.at + size) self.new.at (λ place. place ≡ self.old.at) result }
    {
        let place = self.at;
        if self.file.len() - place < size {
            return Err(fault(Refusal::BadFile, self.file.len()));
        }
        self.at += size;
        Ok(place)
    }

    // The count of the items of a section.
    pub(crate) fn count(&mut self) -> Result<usize, Fault>
        ensures same { self.new.file ≡ self.old.file }
        ensures reached { Reached (early self.old.file.now (self.old.at + 2)) (self.old.at + 2) self.new.at (λ count. count ≡ number16 self.old.file.now self.old.at) result }
    {
        let place = self.pass(2)?;
        Ok(number16(self.file, place))
    }

    // The boundary at the start of an item of so many bytes. Boundaries below `low` fail to rise.
    pub(crate) fn boundary(&mut self, width: usize, low: usize, days: usize) -> Result<usize, Fault>
        requires { 2 ≤ width }
        ensures same { self.new.file ≡ self.old.file }
        ensures reached { Reached (rising_fault width self.old.file.now self.old.at low days) (self.old.at + width) self.new.at (BoundaryRead self.old.file.now self.old.at low days) result }
    {
        let place = self.pass(width)?;
        let boundary = number16(self.file, place);
        if boundary < low {
            return Err(fault(Refusal::BadFile, place));
        }
        if days < boundary {
            return Err(fault(Refusal::NoBoundary, place));
        }
        Ok(boundary)
    }

    // The end of the file, after its last section.
    pub(crate) fn ended(&self) -> Result<(), Fault>
        ensures { Reached (left_over self.now.file.now self.now.at) self.now.at self.now.at (λ _. ⊤) result }
    {
        if self.at < self.file.len() {
            return Err(fault(Refusal::BadFile, self.at));
        }
        Ok(())
    }
}
