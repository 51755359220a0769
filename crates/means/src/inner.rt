// A list holds `stride` numbers for each voxel of a grid of w × h × d, and voxel (x, y, z) is number (z * h + y) * w + x.
ghost use Rattle.std.specs.Prelude.{◌≡◌, ◌+◌, ◌-◌, ◌*◌, ◌≤◌, ◌<◌, pos, length, take, get_or, ◌++◌};
ghost use Rattle.std.specs.Float.{binary32, nan};
ghost use Rattle.std.specs.Float.Ieee.{mul, div, of_int};
ghost use Rattle.lists.specs.Fold.{tab};
ghost use Rattle.means.specs.Box.{first_near, past_near, plus, mean_in, mean_at, square_at, light_blur_of, coefficient_blur_of};
ghost use Rattle.means.specs.Sums.{span_of, last_in, row_sum, plane_sum, box_sum, each};

use super::Span;

// The mean of each number of src, sixteen a voxel, in dst.
pub fn mean(src: &[f32], dst: &mut [f32], w: usize, h: usize, d: usize)
    requires { (0 < w) × (0 < h) × (d * h * w * 16 ≡ length src.now) × (length dst.old ≡ length src.now) }
    ensures { dst.new ≡ coefficient_blur_of src.now w h d }
{
    for v in 0..dst.len() / 16 {
        voxel(src, dst, w, h, d, v);
    }
}

// The light's blur: the square of the mean of each number of src, in dst.
pub fn square(src: &[f32], dst: &mut [f32], w: usize, h: usize, d: usize)
    requires { (0 < w) × (0 < h) × (d * h * w ≡ length src.now) × (length dst.old ≡ length src.now) }
    ensures { dst.new ≡ light_blur_of src.now w h d }
{
    let mut i = 0;
    while i < dst.len() {
        let n = squares(src, dst, w, h, d, i);
        i += n;
    }
}

// Every number of src, in dst. By index: the library's copy makes the archive need memmove, which its callers may not have.
pub fn copy(src: &[f32], dst: &mut [f32])
    requires { length dst.old ≡ length src.now }
    ensures { dst.new ≡ src.now }
{
    for i in 0..dst.len() {
        dst[i] = src[i];
    }
}

// The squares of the means from voxel i on, in dst, and how many: what is written before i, and what the definition gives from i on, are written up to that
// many voxels on. Inner voxels of a row go side by side: sixteen numbers are written then, of which so many are theirs, and what comes later is written over
// the others.
fn squares(src: &[f32], dst: &mut [f32], w: usize, h: usize, d: usize, i: usize) -> usize
    requires { (0 < w) × (0 < h) × (d * h * w ≡ length src.now) × (length dst.old ≡ length src.now) × (i < length src.now) }
    ensures { (0 < result) × (i + result ≤ length dst.old)
        × (take (i + result) dst.new ++ tab (square_at src.now w h d) (length dst.new - (i + result)) (i + result)
        ≡ take i dst.old ++ tab (square_at src.now w h d) (length dst.old - i) i) }
{
    let r = i / w;
    let x = i % w;
    let y = r % h;
    let z = r / h;
    let n = abreast(w, h, d, x, y, z, src.len());
    if n == 1 {
        dst[i] = square_at(src, w, h, d, i);
        return 1;
    }
    let m = means_in(src, 1, w, h, d, x, y, z);
    put(dst, i, squared(m));
    n
}

// How many voxels of a row go side by side from (x, y, z) on: up to sixteen that have three columns each, where a list of len has sixteen numbers from every
// place of the first one's box on; else 1. Two are not worth it.
fn abreast(w: usize, h: usize, d: usize, x: usize, y: usize, z: usize, len: usize) -> usize
    requires { (x < w) × (y < h) × (z < d) × (d * h * w ≤ len) }
    ensures { (0 < result) × (result ≤ 16) × (x + result ≤ w) × (1 < result → (0 < x) × (x + result < w) × (last_in w h (span_of x w) (span_of y h) (span_of z d) + 16 ≤ len)) }
{
    if x == 0 {
        return 1;
    }
    let n = w - x - 1;
    if n < 3 {
        return 1;
    }
    let rows = past_near(y, h);
    let planes = past_near(z, d);
    let last = ((planes - 1) * h + (rows - 1)) * w + (x + 1);
    if len - last < 16 {
        return 1;
    }
    if n < 16 {
        return n;
    }
    16
}

fn square_at(src: &[f32], w: usize, h: usize, d: usize, i: usize) -> f32
    requires { (0 < w) × (0 < h) × (d * h * w ≡ length src.now) × (i < length src.now) }
    ensures { result ≡ square_at src.now w h d i }
{
    let q = mean_at(src, w, h, d, i);
    q * q
}

fn mean_at(src: &[f32], w: usize, h: usize, d: usize, i: usize) -> f32
    requires { (0 < w) × (0 < h) × (d * h * w ≡ length src.now) × (i < length src.now) }
    ensures { result ≡ mean_at src.now 1 w h d i }
{
    let r = i / w;
    means_in::<1>(src, 1, w, h, d, i % w, r % h, r / h)[0]
}

// The coordinates within 1 of x on an axis of n.
fn near(x: usize, n: usize) -> Span
    requires { x < n }
    ensures { (result.first ≡ first_near x) × (result.past ≡ past_near x n) }
{
    Span {
        first: first_near(x),
        past: past_near(x, n),
    }
}

// The first coordinate within 1 of x.
fn first_near(x: usize) -> usize
    ensures { result ≡ first_near x }
{
    x.saturating_sub(1)
}

// The coordinate past the last within 1 of x, on an axis of n.
fn past_near(x: usize, n: usize) -> usize
    requires { x < n }
    ensures { result ≡ past_near x n }
{
    x.saturating_add(2).min(n)
}

// How many cells a box has, as a float.
fn cells(a: usize, b: usize, c: usize) -> f32
    requires { (a ≤ 3) × (b ≤ 3) × (c ≤ 3) }
    ensures { result ≡ of_int binary32 (pos (c * (b * a))) }
{
    (c * (b * a)) as u16 as f32
}

// ---- N numbers at once, so that sixteen are added four by four: those of a voxel, or, where a voxel has one, those of sixteen voxels of a row

// The sixteen means of voxel v, in dst: what is written before v, and what the definition gives from v on, are written up to the next voxel.
fn voxel(src: &[f32], dst: &mut [f32], w: usize, h: usize, d: usize, v: usize)
    requires { (0 < w) × (0 < h) × (d * h * w * 16 ≡ length src.now) × (v * 16 + 16 ≤ length dst.old) × (length dst.old ≡ length src.now) }
    ensures { take (v * 16 + 16) dst.new ++ tab (mean_at src.now 16 w h d) (length dst.new - (v * 16 + 16)) (v * 16 + 16)
        ≡ take (v * 16) dst.old ++ tab (mean_at src.now 16 w h d) (length dst.old - v * 16) (v * 16) }
{
    let r = v / w;
    let m = means_in(src, 16, w, h, d, v % w, r % h, r / h);
    put(dst, v * 16, m);
}

// Sixteen numbers, in dst from a place on.
fn put(dst: &mut [f32], at: usize, m: [f32; 16])
    requires { (at + 16 ≤ length dst.old) × (length m ≡ 16) }
    ensures { take (at + 16) dst.new ≡ take at dst.old ++ m }
{
    dst[at..at + 16].copy_from_slice(&m);
}

// The means of N numbers from the first of each of the voxels round (x, y, z) on.
fn means_in<const N: usize>(
    src: &[f32],
    stride: usize,
    w: usize,
    h: usize,
    d: usize,
    x: usize,
    y: usize,
    z: usize,
) -> [f32; N]
    requires { (x < w) × (y < h) × (z < d) × (0 < stride) × (last_in w h (span_of x w) (span_of y h) (span_of z d) * stride + N ≤ length src.now) }
    ensures { result ≡ tab (λ k. mean_in src.now stride k w h d x y z) N 0 }
{
    let columns = near(x, w);
    let rows = near(y, h);
    let planes = near(z, d);
    let sums = box_sums(src, stride, w, h, columns, rows, planes, [0.0; N]);
    shares(
        sums,
        cells(
            columns.past - columns.first,
            rows.past - rows.first,
            planes.past - planes.first,
        ),
    )
}

// Each sum over the count.
fn shares<const N: usize>(s: [f32; N], n: f32) -> [f32; N]
    ensures { result ≡ tab (λ k. div binary32 (get_or s.entry k nan) n) N 0 }
{
    let mut m = [0.0; N];
    for k in 0..N {
        m[k] = s[k] / n;
    }
    m
}

// Each number squared.
fn squared(m: [f32; 16]) -> [f32; 16]
    ensures { result ≡ each (λ k. mul binary32 (get_or m k nan) (get_or m k nan)) }
{
    let mut q = [0.0; 16];
    for k in 0..16 {
        q[k] = m[k] * m[k];
    }
    q
}

// The planes of a box added to s, of each its rows, of each the numbers of its columns.
fn box_sums<const N: usize>(
    src: &[f32],
    stride: usize,
    w: usize,
    h: usize,
    columns: Span,
    rows: Span,
    planes: Span,
    s: [f32; N],
) -> [f32; N]
    requires { (columns.first < columns.past) × (columns.past ≤ columns.first + 3) × (rows.first ≤ rows.past) × (planes.first ≤ planes.past) × (0 < w) × (0 < h) × (0 < stride) × (last_in w h columns rows planes * stride + N ≤ length src.now) }
    ensures { result ≡ tab (λ k. box_sum src.now stride k w h columns rows planes (get_or s.entry k nan)) N 0 }
{
    let mut sum = s;
    for z in planes.first..planes.past {
        sum = plane_sums(src, stride, w, columns, z * h, rows, sum);
    }
    sum
}

fn plane_sums<const N: usize>(
    src: &[f32],
    stride: usize,
    w: usize,
    columns: Span,
    plane: usize,
    rows: Span,
    s: [f32; N],
) -> [f32; N]
    requires { (columns.first < columns.past) × (columns.past ≤ columns.first + 3) × (rows.first ≤ rows.past) × (0 < w) × (0 < stride) × (((plane + (rows.past - 1)) * w + (columns.past - 1)) * stride + N ≤ length src.now) }
    ensures { result ≡ tab (λ k. plane_sum src.now stride k w columns plane rows (get_or s.entry k nan)) N 0 }
{
    let mut sum = s;
    for y in rows.first..rows.past {
        sum = row_sums(src, stride, (plane + y) * w, columns, sum);
    }
    sum
}

// No loop: the columns are one to three.
fn row_sums<const N: usize>(
    src: &[f32],
    stride: usize,
    row: usize,
    columns: Span,
    s: [f32; N],
) -> [f32; N]
    requires { (columns.first < columns.past) × (columns.past ≤ columns.first + 3) × (0 < stride) × ((row + (columns.past - 1)) * stride + N ≤ length src.now) }
    ensures { result ≡ tab (λ k. row_sum src.now stride k row columns (get_or s.entry k nan)) N 0 }
{
    let x = columns.first;
    let count = columns.past - x;
    let one = with_voxel(src, stride, row + x, s);
    if count == 1 {
        return one;
    }
    let two = with_voxel(src, stride, row + (x + 1), one);
    if count == 2 {
        return two;
    }
    with_voxel(src, stride, row + (x + 2), two)
}

// The N numbers from voxel v's first on added to the sums.
fn with_voxel<const N: usize>(src: &[f32], stride: usize, v: usize, s: [f32; N]) -> [f32; N]
    requires { v * stride + N ≤ length src.now }
    ensures { result ≡ tab (λ k. plus src.now stride k v (get_or s.entry k nan)) N 0 }
{
    let at = v * stride;
    let mut sum = [0.0; N];
    for k in 0..N {
        sum[k] = s[k] + src[at + k];
    }
    sum
}
