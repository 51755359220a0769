// What the league asks: the figures of no light, of the lights of a list of bytes, and two figures joined.
ghost use Rattle.std.specs.Prelude.{◌≡◌, false, [], ◌∷◌, ◌+◌, ◌*◌, ◌<◌, ◌≤◌, max, length, get_or};
ghost use Rattle.names.specs.Numbers.{most_units, band_number};
ghost use Rattle.lists.specs.Fold.{tab};
ghost use Rattle.lists.specs.Some.{some};
ghost use Rattle.bytes_le.specs.Bytes.{floats_at};
ghost use Rattle.light_units.specs.Units.{light_outside};
ghost use Rattle.light_figures.specs.LightFigures.{band_of, figures_of, light_figures, lowest_of_both, joined_figures, most_voxels, FiguresSized, BandsFit};

use super::LightFigures;
use names::{BAND_WIDTH, MOST_UNITS};

const LAST_BAND: usize = 15;

// The figures of no light.
pub fn none() -> LightFigures
    ensures { result ≡ figures_of [] }
{
    LightFigures {
        voxels: 0,
        sum: 0,
        lowest: 0,
        highest: 0,
        bands: [0u64; 16],
    }
}

// The figures of the n lights from byte `at` on.
pub fn counted(bytes: &[u8], at: usize, n: usize) -> LightFigures
    requires { (at + n * 4 ≤ length bytes.now) × (n ≤ most_voxels) × (some light_outside (floats_at bytes.now at n) ≡ false) }
    ensures { result ≡ light_figures (floats_at bytes.now at n) }
{
    let mut figures = none();
    let mut i: usize = 0;
    while i < n {
        let units = light_units::inner::units_of(bytes_le::inner::f32_at(bytes, at + i * 4));
        figures = with_light(figures, units);
        i += 1;
    }
    figures
}

// The figures of both lists of lights put together.
pub fn joined(a: LightFigures, b: LightFigures) -> LightFigures
    requires { FiguresSized a × FiguresSized b × (a.voxels + b.voxels ≤ most_voxels) }
    ensures { result ≡ joined_figures a b }
{
    let here = a.bands;
    let there = b.bands;
    let bands = bands_joined(here, there);
    LightFigures {
        voxels: a.voxels + b.voxels,
        sum: a.sum + b.sum,
        lowest: lowest_of_both(a.voxels, a.lowest, b.voxels, b.lowest),
        highest: higher(a.highest, b.highest),
        bands,
    }
}

// One light more, of so many units.
fn with_light(figures: LightFigures, units: u64) -> LightFigures
    requires { FiguresSized figures × (units ≤ most_units) }
    ensures { result ≡ joined_figures figures (figures_of (units ∷ [])) }
{
    let band = band_of(units);
    let mut bands = figures.bands;
    bands[band] = bands[band] + 1;
    LightFigures {
        voxels: figures.voxels + 1,
        sum: figures.sum + units,
        lowest: lowest_of_both(figures.voxels, figures.lowest, 1, units),
        highest: higher(figures.highest, units),
        bands,
    }
}

fn bands_joined(a: [u64; 16], b: [u64; 16]) -> [u64; 16]
    requires { BandsFit a b }
    ensures { result ≡ tab (λ k. get_or a k 0 + get_or b k 0) band_number 0 }
{
    let mut sums = [0u64; 16];
    let mut i: usize = 0;
    while i < 16 {
        sums[i] = a[i] + b[i];
        i += 1;
    }
    sums
}

// The lowest of p and of q numbers, of which either may be none.
fn lowest_of_both(p: u64, first: u64, q: u64, second: u64) -> u64
    ensures { result ≡ lowest_of_both p first q second }
{
    if p == 0 {
        return second;
    }
    if q == 0 {
        return first;
    }
    if first < second {
        return first;
    }
    second
}

fn higher(a: u64, b: u64) -> u64
    ensures { result ≡ max a b }
{
    if a < b {
        return b;
    }
    a
}

// The band of so many units; 2^24 falls in the last.
fn band_of(units: u64) -> usize
    requires { units ≤ most_units }
    ensures { (result ≡ band_of units) × (result < band_number) }
{
    if units == MOST_UNITS {
        return LAST_BAND;
    }
    (units / BAND_WIDTH) as usize
}
