//! Fields that are worked out.
ghost use Rattle.pm_tables.specs.Worked.{InHundredths, InWholeNumbers};

/// Values of `-0.050` and `12.505` with two decimals, whole numbers at 2^63, and the empty field.
pub fn worked_fields()
    ensures hundredths { InHundredths }
    ensures whole { InWholeNumbers }
{}
