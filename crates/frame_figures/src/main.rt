// Frames in a hall of 2×3×4 voxels of edge 1, from the corner (0, 0, 0). The light of voxel i is i, so that between the cells it is x + 2y + 6z; number k
// of the sixteen is 32k more. Each line has the first refusal and its place, then four times each answer afterwards, where 28 stands for "as it was".
#![tactic(auto)]

use frames::{FirstRefusal, FirstRefused};
use grid::{Axes, Corners};
use std::io;
use vectors::Vec3;

fn hall() -> Axes {
    Axes {
        width: 2,
        height: 3,
        depth: 4,
    }
}

fn corners(high: f32) -> Corners {
    Corners {
        min: Vec3 {
            x: 0.0,
            y: 0.0,
            z: 0.0,
        },
        max: Vec3 {
            x: 2.0,
            y: high,
            z: 4.0,
        },
    }
}

// The lights; the first and the last are as asked.
fn lights(first: f32, last: f32) -> [f32; 24] {
    [
        first, 1.0, 2.0, 3.0, 4.0, 5.0, 6.0, 7.0, 8.0, 9.0, 10.0, 11.0, 12.0, 13.0, 14.0, 15.0,
        16.0, 17.0, 18.0, 19.0, 20.0, 21.0, 22.0, last,
    ]
}

// Four positions, of the second y and of the last z as asked; the first alone reads voxel 0, the last alone voxel 23.
fn positions(y: f32, z: f32) -> [f32; 12] {
    [0.5f32, 0.5, 0.5, 0.25, y, 1.75, 1.0, 0.25, 1.5, 1.0, 2.0, z]
}

fn print_fourths(rt: &impl Print, x: f32) -> io::Result<()> {
    print!(rt; " {}", std::num::saturating_f32_to_u64(x * 4.0))
}

fn print_first(rt: &impl Print, answer: Result<(), FirstRefused>) -> io::Result<()> {
    let first = FirstRefusal::from(answer);
    print!(rt; "{} {}", first.refusal, first.place)
}

fn print_answers(rt: &impl Print, answers: &[f32]) -> io::Result<()> {
    for answer in answers {
        print_fourths(rt, *answer)?;
    }
    Ok(())
}

// The end of an accepted frame's line. The expected output has the first of the two alone, so that an answer which is not the single call's shows.
fn print_same(rt: &impl Print, same: bool) -> io::Result<()> {
    if same {
        return println!(rt; ", as one by one");
    }
    println!(rt; ", not as one by one")
}

// Whether the single call gives this light at a position.
fn same_light(light: &[f32; 24], x: f32, y: f32, z: f32, answer: f32) -> bool {
    lookup::light_at(hall(), corners(3.0), light, Vec3 { x, y, z }).is_ok_and(|l| l == answer)
}

// Whether the single call gives the sixteen numbers from a place on.
fn same_sixteen(
    volume: &[f32; 384],
    x: f32,
    y: f32,
    z: f32,
    answers: &[f32; 64],
    at: usize,
) -> bool {
    match lookup::coefficients_at(hall(), corners(3.0), volume, Vec3 { x, y, z }) {
        Ok(numbers) => same_numbers(&numbers, answers, at),
        Err(_) => false,
    }
}

fn same_numbers(numbers: &[f32; 16], answers: &[f32; 64], at: usize) -> bool {
    if at > 48 {
        return false;
    }
    for i in 0..16 {
        if numbers[i] != answers[at + i] {
            return false;
        }
    }
    true
}

fn frame_sixteens(
    volume: &[f32; 384],
    all: &[f32; 12],
    answers: &mut [f32; 64],
) -> Result<(), FirstRefused> {
    frames::frame_coefficients(hall(), corners(3.0), volume, all, answers)
}

fn fill_volume(volume: &mut [f32; 384]) {
    for i in 0..384 {
        volume[i] = (i % 16 * 32 + i / 16) as u16 as f32;
    }
}

// The frame of lights, and what it leaves.
fn show(
    rt: &impl Print,
    axes: Axes,
    corners: Corners,
    light: &[f32],
    positions: &[f32],
    answers: &mut [f32],
) -> io::Result<()> {
    print_first(
        rt,
        frames::frame_lights(axes, corners, light, positions, answers),
    )?;
    print_answers(rt, answers)?;
    println!(rt)
}

// Accepted; at the end of the line, whether each is the single call's.
fn good(rt: &impl Print) -> io::Result<()> {
    let light = lights(0.0, 23.0);
    let all = positions(1.5, 3.0);
    let mut answers = [7.0f32; 4];
    let r = frames::frame_lights(hall(), corners(3.0), &light, &all, &mut answers);
    print_first(rt, r)?;
    print_answers(rt, &answers)?;
    let a = same_light(&light, all[0], all[1], all[2], answers[0]);
    let b = same_light(&light, all[3], all[4], all[5], answers[1]);
    let c = same_light(&light, all[6], all[7], all[8], answers[2]);
    let d = same_light(&light, all[9], all[10], all[11], answers[3]);
    print_same(rt, a & b & c & d)
}

// With the first and the last light, and two numbers of the positions, as asked.
fn spoilt(rt: &impl Print, first: f32, last: f32, y: f32, z: f32) -> io::Result<()> {
    let light = lights(first, last);
    let all = positions(y, z);
    let mut answers = [7.0f32; 4];
    show(rt, hall(), corners(3.0), &light, &all, &mut answers)
}

// Numbers that are not three for each of the four answers.
fn numbers_short(rt: &impl Print, positions: &[f32]) -> io::Result<()> {
    let light = lights(0.0, 23.0);
    let mut answers = [7.0f32; 4];
    show(rt, hall(), corners(3.0), &light, positions, &mut answers)
}

// A light too few.
fn light_short(rt: &impl Print, axes: Axes, high: f32) -> io::Result<()> {
    let light = [1.0f32; 23];
    let all = positions(1.5, 3.0);
    let mut answers = [7.0f32; 4];
    show(rt, axes, corners(high), &light, &all, &mut answers)
}

// No position and no answer.
fn empty(rt: &impl Print) -> io::Result<()> {
    let light = lights(0.0, 23.0);
    let all = positions(1.5, 3.0);
    let mut answers = [7.0f32; 4];
    show(
        rt,
        hall(),
        corners(3.0),
        &light,
        &all[0..0],
        &mut answers[0..0],
    )
}

// The first and the last number of each position's sixteen and, where the frame is accepted, whether all are the single call's; last is the volume's last
// number.
fn sixteens(rt: &impl Print, last: f32) -> io::Result<()> {
    let mut volume = [0.0f32; 384];
    fill_volume(&mut volume);
    volume[383] = last;
    let all = positions(1.5, 3.0);
    let mut answers = [7.0f32; 64];
    let r = frame_sixteens(&volume, &all, &mut answers);
    print_first(rt, r)?;
    print_fourths(rt, answers[0])?;
    print_fourths(rt, answers[15])?;
    print_fourths(rt, answers[16])?;
    print_fourths(rt, answers[31])?;
    print_fourths(rt, answers[32])?;
    print_fourths(rt, answers[47])?;
    print_fourths(rt, answers[48])?;
    print_fourths(rt, answers[63])?;
    if r.is_err() {
        return println!(rt);
    }
    let a = same_sixteen(&volume, all[0], all[1], all[2], &answers, 0);
    let b = same_sixteen(&volume, all[3], all[4], all[5], &answers, 16);
    let c = same_sixteen(&volume, all[6], all[7], all[8], &answers, 32);
    let d = same_sixteen(&volume, all[9], all[10], all[11], &answers, 48);
    print_same(rt, a & b & c & d)
}

fn main(rt: HostRuntime) -> io::Result<()> {
    let none = 0.0 / 0.0;
    good(&rt)?;
    spoilt(&rt, 0.0, none, 1.5, 3.0)?;
    spoilt(&rt, 0.0, none, 4097.0, 3.0)?;
    spoilt(&rt, 0.0, none, 1.5, 4097.0)?;
    spoilt(&rt, none, 23.0, 4097.0, 3.0)?;
    numbers_short(&rt, &[0.5; 11])?;
    numbers_short(&rt, &[0.5; 9])?;
    light_short(&rt, hall(), 3.0)?;
    light_short(&rt, hall(), 0.0)?;
    light_short(
        &rt,
        Axes {
            width: 2,
            height: 129,
            depth: 4,
        },
        0.0,
    )?;
    empty(&rt)?;
    sixteens(&rt, 503.0)?;
    sixteens(&rt, none)
}
