//! The scale of a panel.
ghost use Rattle.std.specs.Prelude.{◌≡◌, ◌+◌, ◌*◌, ◌<◌, ◌≤◌, length};
ghost use Rattle.view_pictures.specs.Scale.{depth_of, plot_height, scale_of, top_of_scale};
ghost use Rattle.aps_model.specs.Limits.{longest_tick, most_cpus, most_time_of_tick};

use aps_model::Nanos;

/// How high a panel is.
pub const HEIGHT: u64 = 900;

/// How many tops there are.
const SCALES: usize = 11;

/// What the top of a panel may stand for, in parts of 1,000 of all processor time.
static TOPS: [u64; SCALES] = [10, 20, 50, 100, 200, 300, 400, 500, 600, 800, 1000];

/// The processors and the tick (ns) of a run.
#[derive(Clone, Copy)]
pub struct Sizes {
    pub cpus: u8,
    pub tick: Nanos,
    ghost few: { cpus ≤ most_cpus },
    ghost some: { 0 < tick },
    ghost short: { tick ≤ longest_tick },
}

impl Sizes {
    /// All processor time of a window of so many ticks, in ns.
    pub fn whole(&self, window: u16) -> Nanos
        ensures same { result ≡ self.now.cpus * window * self.now.tick }
        ensures few { result ≤ 20000000000000 }
    {
        u64::from(self.cpus) * u64::from(window) * self.tick
    }

    /// All processor time of a tick, in ns.
    pub fn tick_of_all(&self) -> Nanos
        ensures same { result ≡ self.now.cpus * self.now.tick }
        ensures few { result ≤ most_time_of_tick }
    {
        u64::from(self.cpus) * self.tick
    }
}

/// The first of the tops that is above this part of the whole, or the last.
pub fn scale_of(part: Nanos, whole: Nanos) -> usize
    ensures same { result ≡ scale_of part whole }
    ensures few { result < 11 }
{
    for i in 0..SCALES - 1 {
        if u128::from(part) * 1000 < u128::from(TOPS[i]) * u128::from(whole) {
            return i;
        }
    }
    SCALES - 1
}

/// What the top stands for that has this place.
pub fn top_of(scale: usize) -> u64
    ensures { result ≡ top_of_scale scale }
{
    match TOPS.get(scale) {
        Some(top) => *top,
        None => 1000,
    }
}

/// How far this part of the whole stands below the top of a panel, in units.
pub fn depth_of(part: Nanos, whole: Nanos, top: u64) -> u16
    ensures same { result ≡ depth_of part whole top }
    ensures few { result ≤ plot_height }
{
    let scale = u128::from(whole) * u128::from(top);
    if scale == 0 {
        return 900;
    }
    let height = u128::from(part) * 900_000 / scale;
    (900 - height.min(900)) as u16
}
