// The public calls of the two blurs.
#![tactic(auto)]

ghost use Rattle.std.specs.Prelude.{◌≡◌, ◌≤◌};
ghost use Rattle.names.specs.Answers.{answer_number};
ghost use Rattle.grid.specs.Grid.{AxesWithin};
ghost use Rattle.blurs.specs.Blurs.{LightBlurred, CoefficientsBlurred, light_blur_refusal, coefficient_blur_refusal, wrong_blur_lists};

use grid::Axes;
use names::Refusal;

// Light: scratch gets the light as it was, and the light the square of its 3×3×3 mean. Refused by 1, 3 or 13, and then writes nothing.
pub fn light_blur(axes: Axes, light: &mut [f32], scratch: &mut [f32]) -> Result<(), Refusal>
    ensures { LightBlurred axes light.old scratch.old (answer_number result) light.new scratch.new }
{
    judge_light(axes, light, scratch)?;
    means::inner::copy(light, scratch);
    means::inner::square(scratch, light, axes.width, axes.height, axes.depth);
    Ok(())
}

// The sixteen numbers of each voxel: scratch gets the volume as it was, and the volume its 3×3×3 mean. Refused by 1, 3 or 13, and then writes nothing.
pub fn coefficient_blur(axes: Axes, volume: &mut [f32], scratch: &mut [f32]) -> Result<(), Refusal>
    ensures { CoefficientsBlurred axes volume.old scratch.old (answer_number result) volume.new scratch.new }
{
    judge_coefficients(axes, volume, scratch)?;
    means::inner::copy(volume, scratch);
    means::inner::mean(scratch, volume, axes.width, axes.height, axes.depth);
    Ok(())
}

fn judge_light(axes: Axes, light: &[f32], scratch: &[f32]) -> Result<(), Refusal>
    ensures { answer_number result ≡ light_blur_refusal axes light.now scratch.now }
{
    if limits::inner::bad_axes(axes) {
        return Err(Refusal::Axes);
    }
    if wrong_lists(axes, 1, light, scratch) {
        return Err(Refusal::Lengths);
    }
    if limits::inner::bad_lights(light) {
        return Err(Refusal::Contents);
    }
    Ok(())
}

fn judge_coefficients(axes: Axes, volume: &[f32], scratch: &[f32]) -> Result<(), Refusal>
    ensures { answer_number result ≡ coefficient_blur_refusal axes volume.now scratch.now }
{
    if limits::inner::bad_axes(axes) {
        return Err(Refusal::Axes);
    }
    if wrong_lists(axes, 16, volume, scratch) {
        return Err(Refusal::Lengths);
    }
    if limits::inner::bad_coefficients(volume) {
        return Err(Refusal::Contents);
    }
    Ok(())
}

// Whether one of the two lists does not have `stride` numbers for each voxel.
fn wrong_lists(axes: Axes, stride: usize, list: &[f32], scratch: &[f32]) -> bool
    requires { AxesWithin axes × (stride ≤ 16) }
    ensures { result ≡ wrong_blur_lists axes stride list.now scratch.now }
{
    let n = grid::inner::voxel_count(axes) * stride;
    (list.len() != n) | (scratch.len() != n)
}
