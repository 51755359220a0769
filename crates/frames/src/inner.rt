// A frame in two passes. The first judges every position and writes no answer; the second, where nothing was refused, fills the answers. Of a small
// frame the first pass keeps the answers in a list of its own, the room, so that the cells of a position are looked for once.
ghost use Rattle.std.specs.Prelude.{◌≡◌, true, ◌||◌, ◌++◌, [], ◌∷◌, ◌+◌, ◌*◌, ◌<◌, ◌≤◌, List, length, take, Float};
ghost use Rattle.names.specs.Answers.{answer_number};
ghost use Rattle.names.specs.Refusals.{first_of};
ghost use Rattle.vectors.specs.declared.Vec3.{Vec3};
ghost use Rattle.grid.specs.declared.Axes.{Axes};
ghost use Rattle.grid.specs.declared.Corners.{Corners};
ghost use Rattle.grid.specs.Grid.{AxesWithin, voxels};
ghost use Rattle.limits.specs.Limits.{wrong_length};
ghost use Rattle.lookup.specs.Lookup.{GridGood};
ghost use Rattle.frames.specs.Frames.{frame_rows, position_count, position_at, wrong_frame, first_refusal_from, light_frame_of, coefficient_frame_of};
ghost use Rattle.frames.specs.Passes.{NoneBad, EachAccepted, FramedLaws, FrameAnswered, PositionsKept, first_position, frame_refusal};
ghost use Rattle.frames.specs.FramedLaws.{lights_framed_laws, coefficients_framed_laws};

use super::FirstRefused;
use grid::{Axes, Corners};
use lookup::inner::Looked;
use names::Refusal;
use vectors::Vec3;

// ---- of what a frame is

// What is looked up at each position of a frame, and written to the frame's answers.
pub trait Framed: Looked + Copy {
    // what is written
    ghost numbers: { Self → List Float };

    // all that is written
    ghost frame: { Axes → Corners → List Float → List Float → List Float };

    // Whether every number of the list was read and none is refused. The list is read where that costs less than to find and test the cells around each of
    // `count` positions.
    fn clear(list: &[f32], count: usize) -> bool
        ensures { result ≡ true → NoneBad Self.EACH Self.bad_cell list.now };

    // Writes the answer at place k.
    fn put(&self, answers: &mut [f32], k: usize)
        requires { (k + 1) * Self.EACH ≤ length answers.old }
        ensures { take ((k + 1) * Self.EACH) answers.new ≡ take (k * Self.EACH) answers.old ++ numbers self.now };

    ghost framed: { FramedLaws Self.blend Self.refusal numbers frame };
}

impl Framed for f32 {
    ghost numbers = { λ x. x ∷ [] };

    ghost frame = { light_frame_of };

    // measured: from one position for 64 lights on
    fn clear(light: &[f32], count: usize) -> bool {
        if light.len() / 64 <= count {
            return !limits::inner::bad_lights(light);
        }
        false
    }

    fn put(&self, answers: &mut [f32], k: usize) {
        answers[k] = *self;
    }

    ghost framed = { lights_framed_laws };
}

impl Framed for [f32; 16] {
    ghost numbers = { λ numbers. numbers };

    ghost frame = { coefficient_frame_of };

    // measured: from one position for 240 numbers on
    fn clear(volume: &[f32], count: usize) -> bool {
        if volume.len() / 240 <= count {
            return !limits::inner::bad_coefficients(volume);
        }
        false
    }

    fn put(&self, answers: &mut [f32], k: usize) {
        let at = k * 16;
        answers[at..at + 16].copy_from_slice(self);
    }

    ghost framed = { coefficients_framed_laws };
}

// ---- the whole frame

// A frame of up to LARGE numbers has a room; a small one is filled sooner.
pub fn frame<F: Framed, const SMALL: usize, const LARGE: usize>(
    axes: Axes,
    corners: Corners,
    list: &[f32],
    positions: &[f32],
    answers: &mut [f32],
) -> Result<(), FirstRefused>
    requires { (SMALL ≤ 4096) × (LARGE ≤ 4096) }
    ensures { FrameAnswered F.EACH F.refusal F.frame axes corners list.now positions.now answers.old (first_refusal_from result) answers.new }
{
    if answers.len() <= SMALL {
        return in_room::<F, SMALL>(axes, corners, list, positions, answers);
    }
    if answers.len() <= LARGE {
        return in_room::<F, LARGE>(axes, corners, list, positions, answers);
    }
    many::<F>(axes, corners, list, positions, answers)
}

// A frame of up to N numbers. Out of line: within `frame` its room costs larger frames registers.
#[inline(never)]
fn in_room<F: Framed, const N: usize>(
    axes: Axes,
    corners: Corners,
    list: &[f32],
    positions: &[f32],
    answers: &mut [f32],
) -> Result<(), FirstRefused>
    requires { (length answers.old ≤ N) × (N ≤ 4096) }
    ensures { FrameAnswered F.EACH F.refusal F.frame axes corners list.now positions.now answers.old (first_refusal_from result) answers.new }
{
    // what a room holds at first is never read
    let mut room = [1.0; N];
    let n = answers.len();
    few::<F>(axes, corners, list, positions, answers, &mut room[..n])
}

// A frame of few answers: the room holds them all.
fn few<F: Framed>(
    axes: Axes,
    corners: Corners,
    list: &[f32],
    positions: &[f32],
    answers: &mut [f32],
    room: &mut [f32],
) -> Result<(), FirstRefused>
    requires { length room.old ≡ length answers.old }
    ensures { FrameAnswered F.EACH F.refusal F.frame axes corners list.now positions.now answers.old (first_refusal_from result) answers.new }
{
    judge_rows(
        F::EACH,
        axes,
        corners,
        list.len(),
        positions.len(),
        answers.len(),
    )?;
    keep::<F>(axes, corners, list, positions, room)?;
    means::inner::copy(room, answers);
    Ok(())
}

// A frame of any number of answers.
fn many<F: Framed>(
    axes: Axes,
    corners: Corners,
    list: &[f32],
    positions: &[f32],
    answers: &mut [f32],
) -> Result<(), FirstRefused>
    ensures { FrameAnswered F.EACH F.refusal F.frame axes corners list.now positions.now answers.old (first_refusal_from result) answers.new }
{
    judge::<F>(axes, corners, list, positions, answers.len())?;
    fill::<F>(axes, corners, list, positions, answers);
    Ok(())
}

// ---- the passes

// The first position that the single lookup refuses; where there is none, the room has what is found at each position.
fn keep<F: Framed>(
    axes: Axes,
    corners: Corners,
    list: &[f32],
    positions: &[f32],
    room: &mut [f32],
) -> Result<(), FirstRefused>
    requires grid { GridGood F.EACH axes corners list.now }
    requires long { length room.old ≡ position_count (length positions.now) * F.EACH }
    ensures { PositionsKept F.refusal F.frame axes corners list.now positions.now (first_refusal_from result) room.new }
{
    let count = positions.len() / 3;
    for k in 0..count {
        match lookup::inner::in_grid::<F>(axes, corners, list, position(positions, k)) {
            Ok(found) => found.put(room, k),
            Err(refusal) => return Err(FirstRefused { refusal, place: k }),
        }
    }
    Ok(())
}

// The first refusal of a frame.
fn judge<F: Framed>(
    axes: Axes,
    corners: Corners,
    list: &[f32],
    positions: &[f32],
    answers: usize,
) -> Result<(), FirstRefused>
    ensures { first_refusal_from result ≡ frame_refusal F.EACH F.refusal axes corners list.now positions.now answers }
{
    judge_rows(F::EACH, axes, corners, list.len(), positions.len(), answers)?;
    let clear = F::clear(list, positions.len() / 3);
    judge_positions::<F>(axes, corners, list, positions, clear)
}

// The first position that the single lookup refuses.
fn judge_positions<F: Framed>(
    axes: Axes,
    corners: Corners,
    list: &[f32],
    positions: &[f32],
    clear: bool,
) -> Result<(), FirstRefused>
    requires grid { GridGood F.EACH axes corners list.now }
    requires whole { clear ≡ true → NoneBad F.EACH F.bad_cell list.now }
    ensures { first_refusal_from result ≡ first_position F.refusal axes corners list.now positions.now }
{
    let count = positions.len() / 3;
    for k in 0..count {
        let judged = judge_position::<F>(axes, corners, list, position(positions, k), clear);
        if let Err(refusal) = judged {
            return Err(FirstRefused { refusal, place: k });
        }
    }
    Ok(())
}

// What the single lookup refuses at a position of a good grid: 11, 13 or nothing. Where all numbers are good the cells need not be looked for.
fn judge_position<F: Framed>(
    axes: Axes,
    corners: Corners,
    list: &[f32],
    p: Vec3,
    clear: bool,
) -> Result<(), Refusal>
    requires grid { GridGood F.EACH axes corners list.now }
    requires whole { clear ≡ true → NoneBad F.EACH F.bad_cell list.now }
    ensures { answer_number result ≡ F.refusal axes corners list.now p }
{
    if limits::inner::bad_position(p) {
        return Err(Refusal::Position);
    }
    if clear {
        return Ok(());
    }
    if lookup::inner::bad_cells::<F>(list, lookup::inner::cells(axes, corners, p)) {
        return Err(Refusal::Contents);
    }
    Ok(())
}

// What is found at each position, none of which is refused.
fn fill<F: Framed>(
    axes: Axes,
    corners: Corners,
    list: &[f32],
    positions: &[f32],
    answers: &mut [f32],
)
    requires grid { GridGood F.EACH axes corners list.now }
    requires long { length answers.old ≡ position_count (length positions.now) * F.EACH }
    requires none { EachAccepted F.refusal axes corners list.now positions.now }
    ensures { answers.new ≡ F.frame axes corners list.now positions.now }
{
    let count = positions.len() / 3;
    for k in 0..count {
        let c = lookup::inner::cells(axes, corners, position(positions, k));
        F::blend(list, c).put(answers, k);
    }
}

// ---- the rows that concern no position

// Of lists that have `each` numbers a voxel and a position.
fn judge_rows(
    each: usize,
    axes: Axes,
    corners: Corners,
    list: usize,
    positions: usize,
    answers: usize,
) -> Result<(), Refusal>
    requires { (0 < each) × (each ≤ 16) }
    ensures { answer_number result ≡ first_of (frame_rows each axes corners list positions answers) }
{
    if limits::inner::bad_axes(axes) {
        return Err(Refusal::Axes);
    }
    if limits::inner::bad_grid(corners, axes) {
        return Err(Refusal::Grid);
    }
    if wrong_lists(each, axes, list, positions, answers) {
        return Err(Refusal::Lengths);
    }
    Ok(())
}

// Whether the list has not `each` numbers a voxel, or the positions and the answers do not fit.
fn wrong_lists(each: usize, axes: Axes, list: usize, positions: usize, answers: usize) -> bool
    requires { AxesWithin axes × (0 < each) × (each ≤ 16) }
    ensures { result ≡ wrong_length list (voxels axes * each) || wrong_frame each positions answers }
{
    let n = grid::inner::voxel_count(axes) * each;
    (list != n) | wrong_frame(each, positions, answers)
}

// Whether the positions are no multiple of three, or the answers not exactly `each` for every position.
fn wrong_frame(each: usize, positions: usize, answers: usize) -> bool
    requires { 0 < each }
    ensures { result ≡ wrong_frame each positions answers }
{
    (positions % 3 != 0) | limits::inner::wrong_share(each, answers, positions / 3)
}

// The position at place k.
fn position(positions: &[f32], k: usize) -> Vec3
    requires { k * 3 + 2 < length positions.now }
    ensures { result ≡ position_at positions.now k }
{
    vectors::inner::vec_at(positions, k * 3)
}
