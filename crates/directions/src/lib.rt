// Directions (document 01, module 2): nine sets of 64, one constant table of 1,728 numbers recorded from the Rust, and the set
// that a voxel uses.
#![tactic(auto)]

mod recorded;

ghost use Rattle.std.specs.Prelude.{◌≡◌};
ghost use Rattle.names.specs.Answers.{answer_number};
ghost use Rattle.directions.specs.Table.{directions};
ghost use Rattle.directions.specs.Sets.{set_of};
ghost use Rattle.directions.specs.Filled.{DirectionsFilled};

use names::Refusal;

// The table by value. It is built anew on the stack at each call: call this once a bake and lend the array.
pub fn table() -> [f32; 1728]
    ensures { result ≡ directions }
{
    recorded::DIRECTIONS
}

// The table in a lent list of 1,728 numbers, for callers that take no array by value. Another length is refused by 3, and then nothing is written.
pub fn fill(out: &mut [f32]) -> Result<(), Refusal>
    ensures { DirectionsFilled out.old (answer_number result) out.new }
{
    if out.len() != 1728 {
        return Err(Refusal::Lengths);
    }
    out.copy_from_slice(&table());
    Ok(())
}

// "Voxel (x,y,z) uses set ((x%3)+3(y%3)+(z%3))%9."
pub fn set_of_voxel(x: usize, y: usize, z: usize) -> usize
    ensures { result ≡ set_of x y z }
{
    (x % 3 + 3 * (y % 3) + z % 3) % 9
}
