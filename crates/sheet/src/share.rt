// A safe share or a diagnostic coverage, in thousandths.
ghost use Rattle.std.specs.Prelude.{◌≤◌};
ghost use Rattle.sheet.specs.Limits.{greatest_share};

// A part of a whole, 0 to 1,000 thousandths.
#[derive(Clone, Copy)]
pub struct Share {
    pub thousandths: u16,
    ghost within: { thousandths ≤ greatest_share },
}
