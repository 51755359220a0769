// From a position to its eight cells, the tests of what stands in them, and the blend between them.
ghost use Rattle.std.specs.Prelude.{◌≡◌, ℕ, ◌+◌, ◌*◌, ◌/◌, ◌<◌, ◌≤◌, Bool, List, length, get_or, slice_index_or, Float};
ghost use Rattle.std.specs.List.{All, list_any};
ghost use Rattle.std.specs.Float.{nan};
ghost use Rattle.names.specs.Numbers.{axis_limit, light_limit};
ghost use Rattle.lists.specs.Laid.{voxel_part};
ghost use Rattle.lists.specs.Some.{some};
ghost use Rattle.vectors.specs.declared.Vec3.{Vec3};
ghost use Rattle.grid.specs.declared.Axes.{Axes};
ghost use Rattle.grid.specs.declared.Corners.{Corners};
ghost use Rattle.grid.specs.Grid.{AxesWithin};
ghost use Rattle.limits.specs.Limits.{outside, bad_coefficients};
ghost use Rattle.lookup.specs.declared.Cells.{Cells};
ghost use Rattle.lookup.specs.Place.{Placed, Along, CellsFound, Inside, Readable, cells_of, cells_read, cells_from, blend_of, blended_of};
ghost use Rattle.lookup.specs.Lookup.{light_refusal, light_blend, coefficient_refusal, coefficient_blend, LookedLaws, GridGood, LookedUp};
ghost use Rattle.lookup.specs.LookedLaws.{light_laws, coefficient_laws};

use super::{Between, Cells};
use grid::{Axes, Corners};
use names::Refusal;
use vectors::Vec3;

// ---- from a position to its cells

// The eight cells around a position.
pub fn cells(axes: Axes, corners: Corners, p: Vec3) -> Cells
    requires { AxesWithin axes }
    ensures { CellsFound axes corners p result }
{
    let e = grid::inner::edges(corners, axes);
    let x = between(axes.width, (p.x - corners.min.x) / e.x);
    let y = between(axes.height, (p.y - corners.min.y) / e.y);
    let z = between(axes.depth, (p.z - corners.min.z) / e.z);
    cells_from(axes, x, y, z)
}

// The eight cells of three places.
fn cells_from(axes: Axes, x: Between, y: Between, z: Between) -> Cells
    requires axes_within { AxesWithin axes }
    requires along { Along axes x y z }
    ensures { result ≡ cells_from axes x y z }
{
    Cells {
        c000: grid::inner::index(axes, x.cell, y.cell, z.cell),
        c100: grid::inner::index(axes, x.next, y.cell, z.cell),
        c010: grid::inner::index(axes, x.cell, y.next, z.cell),
        c110: grid::inner::index(axes, x.next, y.next, z.cell),
        c001: grid::inner::index(axes, x.cell, y.cell, z.next),
        c101: grid::inner::index(axes, x.next, y.cell, z.next),
        c011: grid::inner::index(axes, x.cell, y.next, z.next),
        c111: grid::inner::index(axes, x.next, y.next, z.next),
        x: x.fraction,
        y: y.fraction,
        z: z.fraction,
    }
}

// The cell of a coordinate, the next one, and the fraction between them. A guess at the cell is tested first; where it fails, the floor tells.
pub fn between(n: usize, f: f32) -> Between
    requires { (1 ≤ n) × (n ≤ axis_limit) }
    ensures { Placed n f result }
{
    let k = guess(f);
    if k < n {
        let low = grid::inner::float(k);
        if low < f {
            if f < grid::inner::float(k + 1) {
                return Between {
                    cell: k,
                    next: (k + 1).min(n - 1),
                    fraction: f - low,
                };
            }
        }
    }
    floored(n, f)
}

// From 0 to 2^22 mostly the whole number below f: with 2^23 − 1/2 added, what is left of the fraction is rounded off.
fn guess(f: f32) -> usize {
    let s = f + 8388607.5;
    if s.is_nan() {
        return 0;
    }
    (f32::to_bits(s) % 8388608) as usize
}

// The same by the floor. Past the end of the axis the cell is the last.
fn floored(n: usize, f: f32) -> Between
    requires { (1 ≤ n) × (n ≤ axis_limit) }
    ensures { Placed n f result }
{
    let floor = floats::floor(f);
    let cell = std::num::saturating_f32_to_usize(floor).min(n - 1);
    Between {
        cell,
        next: (cell + 1).min(n - 1),
        fraction: f - floor,
    }
}

// ---- what is looked up

// What stands in the cells of a list and is looked up between them: a light a cell, or the sixteen numbers of its four coefficients.
pub trait Looked {
    // numbers a cell
    ghost EACH: { ℕ };

    // whether a number of cell i is refused by 13
    ghost bad_cell: { List Float → ℕ → Bool };

    ghost blend: { List Float → Cells → Self };

    ghost refusal: { Axes → Corners → List Float → Vec3 → ℕ };

    ghost laws: { LookedLaws EACH bad_cell refusal };

    const EACH: usize;

    fn bad_cell(list: &[f32], i: usize) -> bool
        requires { i < length list.now / EACH }
        ensures { result ≡ bad_cell list.now i };

    fn blend(list: &[f32], c: Cells) -> Self
        requires { Inside (length list.now / EACH) c }
        ensures { result ≡ blend list.now c };
}

impl Looked for f32 {
    ghost EACH = { 1 };

    ghost bad_cell = { λ light i. outside light_limit (slice_index_or light i nan) };

    ghost blend = { light_blend };

    ghost refusal = { light_refusal };

    ghost laws = { light_laws };

    const EACH: usize = 1;

    fn bad_cell(light: &[f32], i: usize) -> bool {
        limits::inner::bad_light_number(light[i])
    }

    fn blend(light: &[f32], c: Cells) -> f32 {
        blended(light, 1, 0, c)
    }
}

impl Looked for [f32; 16] {
    ghost EACH = { 16 };

    ghost bad_cell = { λ volume i. bad_coefficients (voxel_part 16 i volume) };

    ghost blend = { coefficient_blend };

    ghost refusal = { coefficient_refusal };

    ghost laws = { coefficient_laws };

    const EACH: usize = 16;

    fn bad_cell(volume: &[f32], i: usize) -> bool {
        let at = i * 16;
        limits::inner::bad_coefficients(&volume[at..at + 16])
    }

    fn blend(volume: &[f32], c: Cells) -> [f32; 16] {
        let mut numbers = [0.0; 16];
        for k in 0..16 {
            numbers[k] = blended(volume, 16, k, c);
        }
        numbers
    }
}

// What is found at a position. Refused: 1, 2, 3, 11, and 13 among the numbers of the eight cells read.
pub fn look_up<L: Looked>(axes: Axes, corners: Corners, list: &[f32], p: Vec3) -> Result<L, Refusal>
    ensures { LookedUp (L.refusal axes corners list.now p) (L.blend list.now (cells_of axes corners p)) result }
{
    if limits::inner::bad_axes(axes) {
        return Err(Refusal::Axes);
    }
    if limits::inner::bad_grid(corners, axes) {
        return Err(Refusal::Grid);
    }
    if list.len() != grid::inner::voxel_count(axes) * L::EACH {
        return Err(Refusal::Lengths);
    }
    in_grid(axes, corners, list, p)
}

// The same in a good grid. Inlined, since a call of it costs a tenth more.
#[inline(always)]
pub fn in_grid<L: Looked>(axes: Axes, corners: Corners, list: &[f32], p: Vec3) -> Result<L, Refusal>
    requires { GridGood L.EACH axes corners list.now }
    ensures { LookedUp (L.refusal axes corners list.now p) (L.blend list.now (cells_of axes corners p)) result }
{
    if limits::inner::bad_position(p) {
        return Err(Refusal::Position);
    }
    let c = cells(axes, corners, p);
    if bad_cells::<L>(list, c) {
        return Err(Refusal::Contents);
    }
    Ok(L::blend(list, c))
}

// Whether 13 refuses one of the cells read.
pub fn bad_cells<L: Looked>(list: &[f32], c: Cells) -> bool
    requires { Inside (length list.now / L.EACH) c }
    ensures { result ≡ some (L.bad_cell list.now) (cells_read c) }
{
    let read = [
        c.c000, c.c100, c.c010, c.c110, c.c001, c.c101, c.c011, c.c111,
    ];
    any_bad::<L>(list, &read)
}

fn any_bad<L: Looked>(list: &[f32], read: &[usize]) -> bool
    requires { All (λ i. i < length list.now / L.EACH) read.now }
    ensures { result ≡ list_any (L.bad_cell list.now) read.now }
{
    read.iter().any(|i| L::bad_cell(list, *i))
}

// ---- the blend

// Between the numbers at place k of the eight cells: along x, then y, then z.
pub fn blended(l: &[f32], stride: usize, k: usize, c: Cells) -> f32
    requires { Readable stride k (length l.now) c }
    ensures { result ≡ blended_of c (λ i. get_or l.now (i * stride + k) nan) }
{
    let v00 = pair(l, stride, k, c.c000, c.c100, c.x);
    let v10 = pair(l, stride, k, c.c010, c.c110, c.x);
    let v01 = pair(l, stride, k, c.c001, c.c101, c.x);
    let v11 = pair(l, stride, k, c.c011, c.c111, c.x);
    let v0 = blend(v00, v10, c.y);
    let v1 = blend(v01, v11, c.y);
    blend(v0, v1, c.z)
}

// Between the numbers at place k of cells i and j, of stride numbers a cell.
fn pair(l: &[f32], stride: usize, k: usize, i: usize, j: usize, t: f32) -> f32
    requires { (i * stride + k < length l.now) × (j * stride + k < length l.now) }
    ensures { result ≡ blend_of (slice_index_or l.now (i * stride + k) nan) (slice_index_or l.now (j * stride + k) nan) t }
{
    blend(l[i * stride + k], l[j * stride + k], t)
}

// a·(1−t)+b·t
pub fn blend(a: f32, b: f32, t: f32) -> f32
    ensures { result ≡ blend_of a b t }
{
    a * (1.0 - t) + b * t
}
