//! The memory of sweeps over a trellis, in windows of 64 stages.
//!
//! A sweep back needs the row before each stage, from the last to the first. To keep them all costs a row a stage. So a
//! sweep forward keeps only the row before each window, and the rows of a window are made again when the sweep back
//! comes to it: each stage is visited three times, and there are rows for one window and one more for each.
ghost use Rattle.std.specs.Prelude.{◌≡◌, ◌≤◌};
ghost use Rattle.hpe_lane.specs.Windows.{sweep_rows};

/// The stages of a window.
pub const WINDOW: usize = 64;

/// The rows that the sweeps over so many stages need: one before each window, and those of one window.
pub fn sweep_rows(stages: usize) -> usize
    requires { stages ≤ 10080 }
    ensures { result ≡ sweep_rows stages }
{
    stages.div_ceil(WINDOW) + WINDOW
}
