// "Transmission 0.0001: 0", and beside it the next number up, which passes: prints the refusal and whether any light passes one sheet of each.
// The sheet is triangle Q, of the second of two materials.
#![tactic(auto)]

use std::io;
use vectors::{Ray, Vec3};

fn show(rt: &impl Print, transmission: f32) -> io::Result<()> {
    let points = [0.0f32, 0.0, 0.0, 1.0, 0.0, 0.0, 0.0, 1.0, 0.0];
    let uses = [1u32];
    let kinds = [0u8, 1];
    let numbers = [
        1.0f32,
        1.0,
        1.0,
        0.0,
        0.0,
        0.0,
        0.0,
        1.0,
        1.0,
        1.0,
        0.0,
        0.0,
        0.0,
        transmission,
    ];
    let mut distances = [0.0f32];
    let mut places = [0usize];
    let ray = Ray {
        origin: Vec3 {
            x: 0.25,
            y: 0.25,
            z: 1.0,
        },
        direction: Vec3 {
            x: 0.0,
            y: 0.0,
            z: -1.0,
        },
        shortest: 0.0,
        longest: 2.0,
    };
    let answer = rays::transmittance(
        &points,
        &uses,
        &kinds,
        &numbers,
        ray,
        &mut distances,
        &mut places,
    );
    let light = if answer.transmittance == 0.0 {
        "nothing"
    } else if answer.transmittance == transmission {
        "all of it"
    } else {
        "something else"
    };
    println!(rt; "{} {light}", answer.refusal)
}

fn main(rt: HostRuntime) -> io::Result<()> {
    show(&rt, 0.0001)?;
    show(&rt, 0.00010001)
}
