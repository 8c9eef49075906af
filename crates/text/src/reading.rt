// Reading into room of a fixed size.
ghost use Rattle.std.specs.Prelude.{◌≤◌, ◌≡◌, length, take};

use std::io::Read;

// Reads until the room is full, the input ends or a read fails. How many bytes were read: they stand at the front.
pub fn read_full<R: Read>(input: &mut R, room: &mut [u8]) -> usize
    ensures { (result ≤ length room.new) × (result ≡ length (take result room.new)) }
{
    // No iterator: how many bytes a read gives is known behind it alone.
    let mut done: usize = 0;
    while done < room.len() {
        let n = input.read(&mut room[done..]).unwrap_or(0);
        if n == 0 {
            break;
        }
        done += n;
    }
    done
}
