//! The numbers of ranges.

ghost use Rattle.std.specs.Prelude.{◌≡◌, pos, ◌+ℤ◌, ◌*ℤ◌, IsTrue};
ghost use Rattle.scad_value.specs.Values.{is_small};
ghost use Rattle.scad_meaning.specs.Loops.{count_of_range};

/// How many numbers a range has: none where its step leads away from its end.
pub fn count_of_range(from: i64, by: i64, upto: i64) -> u64
    requires from { IsTrue (is_small from) }
    requires upto { IsTrue (is_small upto) }
    ensures { result ≡ count_of_range from by upto }
{
    if by < 0 {
        count_rising(upto, by.unsigned_abs(), from)
    } else {
        count_rising(from, by.unsigned_abs(), upto)
    }
}

fn count_rising(low: i64, step: u64, high: i64) -> u64
    requires low { IsTrue (is_small low) }
    requires high { IsTrue (is_small high) }
    ensures { result ≡ count_of_range low (pos step) high }
{
    if step == 0 || high < low {
        return 0;
    }
    high.abs_diff(low) / step + 1
}

/// A number of a range, by its place from 0.
pub fn number_at(from: i64, by: i64, place: u64) -> i128
    ensures { result ≡ from +ℤ (pos place *ℤ by) }
{
    from as i128 + place as i128 * by as i128
}
