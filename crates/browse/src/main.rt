// browse: reads a hierarchy line from standard input and answers it, [0,vertices,cells,replacements] or [number,place]. Orders are to come:
// until then it ends after the hierarchy line.
#![tactic(auto)]

mod answer;
mod ground;
#[cfg(test)]
mod trials;

use ground::Ground;
use std::io;
use std::io::Read;

fn main(rt: HostRuntime) -> io::Result<()> {
    let ground = Ground::new(rt.alloc())?;
    let mut input = Vec::new(rt.alloc());
    rt.stdin().read_to_end(&mut input)?;
    let answer = ground.answer(input.as_slice());
    println!(rt; "{answer}")
}
