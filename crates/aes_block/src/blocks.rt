// Up to sixteen blocks by one call, in either direction.
ghost use Rattle.std.specs.Prelude.{◌≡◌, ◌≤◌, ℕ, List, length, map};
ghost use Rattle.cipher.specs.Buffers.{pick};

use crate::schedule::Schedule;
use aes_width::is_wide;
use cipher::part_of;

// Encryption or decryption: of one block by tables, of eight and of sixteen by bit planes.
pub(crate) trait Direction {
    // what a key makes of a block
    ghost of: { List ℕ → List ℕ → List ℕ };

    fn one(schedule: &Schedule, block: &[u8; 16]) -> [u8; 16]
        ensures { result ≡ of schedule.now block.now };

    fn eight(schedule: &Schedule, blocks: &[[u8; 16]]) -> [[u8; 16]; 8]
        requires { length blocks.now ≡ 8 }
        ensures { result ≡ map (of schedule.now) blocks.now };

    fn sixteen(schedule: &Schedule, blocks: &[[u8; 16]]) -> [[u8; 16]; 16]
        requires { length blocks.now ≡ 16 }
        ensures { result ≡ map (of schedule.now) blocks.now };
}

pub(crate) enum Encryption {}

pub(crate) enum Decryption {}

// The blocks that are read, or, where as many are not read, those that stand in the output.
fn read_all<'a>(output: &'a [[u8; 16]], input: &'a [[u8; 16]]) -> &'a [[u8; 16]]
    ensures value { result.now ≡ pick input.now output.now }
    ensures size { length result.now ≡ length output.now }
{
    if input.len() == output.len() {
        input
    } else {
        output
    }
}

fn run_one<D: Direction>(schedule: &Schedule, output: &mut [[u8; 16]], input: &[[u8; 16]])
    requires { length output.old ≡ 1 }
    ensures { output.new ≡ map (D.of schedule.now) (pick input.now output.old) }
{
    let block = read_all(output, input)[0];
    output[0] = D::one(schedule, &block);
}

fn run_eight<D: Direction>(schedule: &Schedule, output: &mut [[u8; 16]], input: &[[u8; 16]])
    requires { length output.old ≡ 8 }
    ensures { output.new ≡ map (D.of schedule.now) (pick input.now output.old) }
{
    let blocks = D::eight(schedule, read_all(output, input));
    output.copy_from_slice(&blocks);
}

// Fewer than eight blocks as the first of eight.
fn run_first<D: Direction>(schedule: &Schedule, output: &mut [[u8; 16]], input: &[[u8; 16]])
    requires { length output.old ≤ 8 }
    ensures { output.new ≡ map (D.of schedule.now) (pick input.now output.old) }
{
    let n = output.len();
    let mut blocks = [[0; 16]; 8];
    blocks[..n].copy_from_slice(read_all(output, input));
    let made = D::eight(schedule, &blocks);
    output.copy_from_slice(&made[..n]);
}

fn run_few<D: Direction>(schedule: &Schedule, output: &mut [[u8; 16]], input: &[[u8; 16]])
    requires { length output.old ≤ 8 }
    ensures { output.new ≡ map (D.of schedule.now) (pick input.now output.old) }
{
    match output.len() {
        1 => run_one::<D>(schedule, output, input),
        8 => run_eight::<D>(schedule, output, input),
        _ => run_first::<D>(schedule, output, input),
    }
}

// Eight blocks, and then the others.
fn run_halves<D: Direction>(schedule: &Schedule, output: &mut [[u8; 16]], input: &[[u8; 16]])
    requires many { 8 ≤ length output.old }
    requires few { length output.old ≤ 16 }
    ensures { output.new ≡ map (D.of schedule.now) (pick input.now output.old) }
{
    let n = output.len();
    let (front, back) = output.split_at_mut(8);
    run_eight::<D>(schedule, front, part_of(input, n, 0, 8));
    run_few::<D>(schedule, back, part_of(input, n, 8, n));
}

fn run_sixteen<D: Direction>(schedule: &Schedule, output: &mut [[u8; 16]], input: &[[u8; 16]])
    requires { length output.old ≡ 16 }
    ensures { output.new ≡ map (D.of schedule.now) (pick input.now output.old) }
{
    let blocks = D::sixteen(schedule, read_all(output, input));
    output.copy_from_slice(&blocks);
}

// Fewer than sixteen blocks as the first of sixteen.
fn run_first_wide<D: Direction>(schedule: &Schedule, output: &mut [[u8; 16]], input: &[[u8; 16]])
    requires { length output.old ≤ 16 }
    ensures { output.new ≡ map (D.of schedule.now) (pick input.now output.old) }
{
    let n = output.len();
    let mut blocks = [[0; 16]; 16];
    blocks[..n].copy_from_slice(read_all(output, input));
    let made = D::sixteen(schedule, &blocks);
    output.copy_from_slice(&made[..n]);
}

fn run_wide<D: Direction>(schedule: &Schedule, output: &mut [[u8; 16]], input: &[[u8; 16]])
    requires { length output.old ≤ 16 }
    ensures { output.new ≡ map (D.of schedule.now) (pick input.now output.old) }
{
    if output.len() == 16 {
        run_sixteen::<D>(schedule, output, input);
    } else {
        run_first_wide::<D>(schedule, output, input);
    }
}

// Each block that is read, or, where as many are not read, that stands in the output.
pub(crate) fn run<D: Direction>(schedule: &Schedule, output: &mut [[u8; 16]], input: &[[u8; 16]])
    requires { length output.old ≤ 16 }
    ensures { output.new ≡ map (D.of schedule.now) (pick input.now output.old) }
{
    if output.len() <= 8 {
        run_few::<D>(schedule, output, input);
    } else if is_wide() {
        run_wide::<D>(schedule, output, input);
    } else {
        run_halves::<D>(schedule, output, input);
    }
}
