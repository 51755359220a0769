// Runs the calls over many files in one run. Standard input holds them one after another, each after its length as a u32. For each
// the figures or the refusal are printed; a file that is accepted is read into lists and written again, and what was written is
// printed in hexadecimal.
#![tactic(auto)]

use std::{fmt, io};

// Room for the voxels of a file of 65,536 bytes.
const MOST: usize = 1024;

// A proved loop has to end, and nothing says that standard input does: no run takes so many turns.
fn main(rt: HostRuntime) -> io::Result<()> {
    let mut space = [0u8; 65537];
    for _ in 0..u64::MAX {
        if !one_file(&rt, &mut space)? {
            break;
        }
    }
    Ok(())
}

// Reads the next file, and answers for it; false where there is none, or it ends within.
fn one_file(rt: &(impl Input + Print), space: &mut [u8]) -> io::Result<bool> {
    let mut head = [0u8; 4];
    if console::read_full(rt, &mut head)? < 4 {
        return Ok(false);
    }
    let long = u32::from_le_bytes(head) as usize;
    let Some(file) = space.get_mut(..long) else {
        return Ok(false);
    };
    if console::read_full(rt, file)? < long {
        return Ok(false);
    }
    answer(rt, file)?;
    Ok(true)
}

fn answer(rt: &impl Print, bytes: &[u8]) -> io::Result<()> {
    let figures = volume::file_figures(bytes);
    volume_report::print(rt, figures)?;
    if figures.is_ok() {
        again(rt, bytes)?;
    }
    Ok(())
}

// Reads an accepted file into lists, writes them again, and prints what was written.
fn again(rt: &impl Print, bytes: &[u8]) -> io::Result<()> {
    let long = volume::file_axes(bytes)
        .and_then(|head| volume::volume_bytes(head.axes))
        .unwrap_or(0);
    if long < 96 {
        return println!(rt; "no length");
    }
    let n = (long - 96) / 70;
    if MOST < n {
        return println!(rt; "too many");
    }
    let words = n.div_ceil(64);
    let mut light = [0.0f32; MOST];
    let mut volume = [0.0f32; MOST * 16];
    let mut occupied = [0u64; MOST / 64];
    let mut active = [0u64; MOST / 64];
    let mut out = [0u8; 71845];
    rewrite(
        rt,
        bytes,
        &mut light[..n],
        &mut volume[..n * 16],
        &mut occupied[..words],
        &mut active[..words],
        &mut out[..long],
    )
}

fn rewrite(
    rt: &impl Print,
    bytes: &[u8],
    light: &mut [f32],
    volume: &mut [f32],
    occupied: &mut [u64],
    active: &mut [u64],
    out: &mut [u8],
) -> io::Result<()> {
    let Ok(head) = volume::read_volume(bytes, light, volume, occupied, active) else {
        return println!(rt; "not read");
    };
    if volume::write_volume(
        head.axes,
        head.corners,
        light,
        volume,
        occupied,
        active,
        out,
    )
    .is_err()
    {
        return println!(rt; "not written");
    }
    println!(rt; "{}", Hex(out))
}

// Bytes in hexadecimal, two digits each.
#[derive(Clone, Copy)]
struct Hex<'a>(&'a [u8]);

impl<'a> fmt::Display for Hex<'a> {
    fn fmt<W: fmt::Write>(&self, f: &mut fmt::Formatter<W>) -> fmt::Result {
        for b in self.0 {
            write!(f, "{b:02x}")?;
        }
        Ok(())
    }
}
