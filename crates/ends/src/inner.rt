// A volume holds sixteen numbers a voxel: four coefficients, each a colour and a fourth place.
ghost use Rattle.std.specs.Prelude.{◌≡◌, [], ◌∷◌, ◌++◌, ◌+◌, ◌*◌, ◌<◌, ◌≤◌, length, take};
ghost use Rattle.names.specs.Numbers.{voxel_limit};
ghost use Rattle.grid.specs.Grid.{voxels};
ghost use Rattle.words.specs.Words.{entries_of, Tidy};
ghost use Rattle.ends.specs.Ends.{ambient_voxel, filled_of, Finished};

use grid::Axes;
use limits::Ambient;
use vectors::Vec3;

// Fills the volume with ambient: light in coefficient 0's fourth place, 1.0 in coefficient 1's.
#[tactic(auto, using(lists::specs::Laid::laid_next), unfolding(crate::specs::Ends::filled_of, lists::specs::Laid::laid))]
pub fn fill(ambient: Ambient, lights: &[f32], volume: &mut [f32])
    requires { (length volume.old ≡ length lights.now * 16) × (length lights.now ≤ voxel_limit) }
    ensures { volume.new ≡ filled_of ambient lights.now }
{
    for (i, light) in lights.iter().enumerate() {
        fill_voxel(ambient, *light, volume, i * 16);
    }
}

// After the last voxel: where any voxel is active, scratch gets the unblurred volume and the volume its mean.
#[tactic(auto, using(marks::specs::MarksLaws::none_active_lem, marks::specs::MarksLaws::active_none))]
pub fn finish(axes: Axes, active: &[u64], volume: &mut [f32], scratch: &mut [f32])
    requires width_nonzero { (0 < axes.width) × (0 < axes.height) × (axes.depth * axes.height * axes.width * 16 ≡ length volume.old)
        × (length scratch.old ≡ length volume.old) }
    requires tidy { Tidy active.now (voxels axes) }
    ensures { Finished axes (entries_of active.now (voxels axes)) volume.old scratch.old volume.new scratch.new }
{
    let n = volume.len() / 16;
    if words::inner::count(active, n) == 0 {
        return;
    }
    means::inner::copy(volume, scratch);
    means::inner::mean(scratch, volume, axes.width, axes.height, axes.depth);
}

// The sixteen numbers of one voxel, from the place at on.
#[tactic(auto, unfolding(crate::specs::Ends::ambient_voxel))]
fn fill_voxel(ambient: Ambient, light: f32, volume: &mut [f32], at: usize)
    requires { at + 16 ≤ length volume.old }
    ensures { take (at + 16) volume.new ≡ take at volume.old ++ ambient_voxel ambient light }
{
    fill_coefficient(ambient.c0, light, volume, at);
    fill_coefficient(ambient.c1, 1.0, volume, at + 4);
    fill_coefficient(ambient.c2, 0.0, volume, at + 8);
    fill_coefficient(ambient.c3, 0.0, volume, at + 12);
}

// A colour and its fourth place.
#[tactic(auto, using(std::proofs::lemmas::Slice::overwrites))]
fn fill_coefficient(colour: Vec3, fourth: f32, volume: &mut [f32], at: usize)
    requires { at + 4 ≤ length volume.old }
    ensures { take (at + 4) volume.new
        ≡ take at volume.old ++ (colour.x ∷ colour.y ∷ colour.z ∷ fourth ∷ []) }
{
    volume[at..at + 4].copy_from_slice(&[colour.x, colour.y, colour.z, fourth]);
}
