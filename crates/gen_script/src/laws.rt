// What holds of the script of each number.
ghost use Rattle.gen_script.specs.Laws.{AreShort, RoundsAreInRange};

/// A script has fewer than 1,000,000 bytes.
pub fn length_law()
    ensures { AreShort }
{}

/// Each line that is drawn is of a kind that may be, and its numbers are in their ranges.
pub fn round_law()
    ensures { RoundsAreInRange }
{}
