// Readings as the marks show them (Account and its calls). Every function is total.
ghost use Rattle.std.specs.Prelude.{◌≡◌, length, MatchOption};
ghost use Rattle.common.specs.Below.{how_many};
ghost use Rattle.account.specs.Slices.{reads_at};
ghost use Rattle.statement.specs.Progress.{NoReading, NextReading};

use account::is_reading;

// The first reading at or after boundary k.
pub(crate) fn next_reading(marks: &[u8], k: usize) -> Option<usize>
    ensures { MatchOption result (NoReading marks.now k) (NextReading marks.now k) }
{
    (k..marks.len()).find(|boundary| is_reading(marks[*boundary]))
}

// How many boundaries have a reading.
// Kept: a loop, which is made into one over many marks at a time; `filter` with `count` is slower.
#[tactic(auto, unfolding(common::specs::Below::how_many))]
pub(crate) fn count_readings(marks: &[u8]) -> usize
    ensures { result ≡ how_many (reads_at marks.now) (length marks.now) }
{
    let mut count = 0;
    for mark in marks {
        if is_reading(*mark) {
            count += 1;
        }
    }
    count
}
