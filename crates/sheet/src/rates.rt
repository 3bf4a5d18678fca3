// The failure rates of a channel, split by what a failure does and whether the diagnostics find it.

// Safe, dangerous detected, dangerous undetected and safe detected, in units of 1e-9 FIT. The safe detected failures are safe ones too.
// Plain numbers: a bound in the type would be asked of every sum that a definition speaks of.
#[derive(Clone, Copy)]
pub struct RateSums {
    pub safe: u64,
    pub dangerous_detected: u64,
    pub dangerous_undetected: u64,
    pub safe_detected: u64,
}
