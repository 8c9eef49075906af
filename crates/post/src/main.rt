// Reads a job from standard input and writes its answer to standard output: the divided path, or why the job is
// refused. Of what is read and written no contract can speak; what the answer to the bytes is, `answering::post` says.
#![tactic(auto)]

mod answering;

use answering::{DIVIDED, JOINTS, POSES, Room, TEXT};
use std::io;
use std::io::Write;
use text::read_full;

// One byte more than a job may have is enough to refuse a longer one.
fn main(rt: HostRuntime) -> io::Result<()> {
    let mut bytes = [0u8; 65537];
    let n = read_full(&mut rt.stdin(), &mut bytes);
    answer(&mut rt.stdout(), &bytes[..n])
}

fn answer<W: Write>(out: &mut W, bytes: &[u8]) -> io::Result<()> {
    let mut room = Room {
        poses: [0.0; POSES],
        divided: [0.0; DIVIDED],
        joints: [0.0; JOINTS],
        text: [0; TEXT],
    };
    let end = answering::post(bytes, &mut room);
    out.write_all(&room.text[..end])
}
