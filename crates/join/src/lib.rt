// The public call that joins shares of a bake.
#![tactic(auto)]

ghost use Rattle.std.specs.Prelude.{◌≡◌, ◌+◌, ◌*◌, ◌≤◌, ◌<◌, length};
ghost use Rattle.names.specs.Answers.{answer_number};
ghost use Rattle.names.specs.Numbers.{voxel_limit};
ghost use Rattle.lists.specs.Laid.{replaced, voxel_part};
ghost use Rattle.marks.specs.Marks.{is_marked};
ghost use Rattle.words.specs.Words.{word_count, entries_of, Tidy};
ghost use Rattle.shares.specs.Shares.{joined_by};
ghost use Rattle.join.specs.Join.{wrong_join_lists, bad_share, join_refusal, Joined};

use grid::Axes;
use names::Refusal;

// The sixteen numbers of each voxel of the share are copied from `unblurred` to `joined`, and the other voxels of `joined` stay as they are. Refused by 1, 3
// or 13, and then writes nothing.
pub fn join(axes: Axes, share: &[u64], unblurred: &[f32], joined: &mut [f32]) -> Result<(), Refusal>
    ensures { Joined axes share.now unblurred.now joined.old (answer_number result) joined.new }
{
    judge(axes, share, unblurred, joined)?;
    let n = grid::inner::voxel_count(axes);
    copy_marked(share, n, unblurred, joined);
    Ok(())
}

// The first row that holds: 1, 3, 13.
fn judge(axes: Axes, share: &[u64], unblurred: &[f32], joined: &[f32]) -> Result<(), Refusal>
    ensures { answer_number result ≡ join_refusal axes share.now unblurred.now joined.now }
{
    if limits::inner::bad_axes(axes) {
        return Err(Refusal::Axes);
    }
    let n = grid::inner::voxel_count(axes);
    if wrong_lists(n, share, unblurred, joined) {
        return Err(Refusal::Lengths);
    }
    if bad_share(n, share, unblurred) {
        return Err(Refusal::Contents);
    }
    Ok(())
}

// Whether the mask has not as many words as n voxels take, or a volume not sixteen numbers for each of them.
fn wrong_lists(n: usize, share: &[u64], unblurred: &[f32], joined: &[f32]) -> bool
    requires { n ≤ voxel_limit }
    ensures { result ≡ wrong_join_lists n share.now unblurred.now joined.now }
{
    (share.len() != (n + 63) / 64) | (unblurred.len() != n * 16) | (joined.len() != n * 16)
}

// Whether an unused bit of the mask is set, or a coefficient is not finite or beyond ±2^96.
fn bad_share(n: usize, share: &[u64], unblurred: &[f32]) -> bool
    requires { length share.now ≡ word_count n }
    ensures { result ≡ bad_share n share.now unblurred.now }
{
    words::inner::unused_set(share, n) | limits::inner::bad_coefficients(unblurred)
}

// The numbers of each marked voxel of n, from `from` to `to`. Words of 0 are passed over whole.
fn copy_marked(share: &[u64], n: usize, from: &[f32], to: &mut [f32])
    requires tidy { Tidy share.now n × (n ≤ voxel_limit) }
    requires from_len { (length from.now ≡ n * 16) × (length to.old ≡ n * 16) }
    ensures { to.new ≡ joined_by 16 n (is_marked (entries_of share.now n)) from.now to.old }
{
    // index loop: i goes from mark to mark
    let mut i = words::inner::next_marked(share, n, 0);
    while i < n {
        copy_voxel(from, to, i);
        i = words::inner::next_marked(share, n, i + 1);
    }
}

// The sixteen numbers of voxel i.
fn copy_voxel(from: &[f32], to: &mut [f32], i: usize)
    requires { (i < voxel_limit) × (i * 16 + 16 ≤ length from.now) × (i * 16 + 16 ≤ length to.old) }
    ensures { to.new ≡ replaced 16 i (voxel_part 16 i from.now) to.old }
{
    let start = i * 16;
    let end = start + 16;
    to[start..end].copy_from_slice(&from[start..end]);
}
