// One record out: the announcement of a path's first bits is put into a lent output; and a bit of a path is set, on the way down
// to it. Nothing here knows how long an address is: a caller says how many bytes it has.
// (`as` narrows, or goes between u32, u64 and usize, where no From serves: it is proved that nothing is lost.)
#![tactic(auto)]

ghost use Rattle.std.specs.Prelude.{◌≡◌, ◌<◌};
ghost use Rattle.theory.specs.Bits.{prefix_of};
ghost use Rattle.rules.specs.Records.{print, announces};
ghost use Rattle.memory.specs.Path.{path_bit, path_bits};
ghost use Rattle.printing.specs.Printing.{patch, BitSet, CanPrint, path_bytes, path_byte};

use memory::Path;
use numbers::ANNOUNCE;

// The path with the bit at a place set.
pub fn set_bit(path: Path, place: usize) -> Path
    requires { place < path_bits }
    ensures { BitSet path place result }
{
    if place < 64 {
        Path {
            high: path.high | (1 << (63 - place)),
            ..path
        }
    } else {
        Path {
            low: path.low | (1 << (127 - place)),
            ..path
        }
    }
}

// The byte at a place, counted from the first.
fn byte_of(path: Path, i: usize) -> u8
    requires { i < path_bytes }
    ensures { result ≡ path_byte path i }
{
    if i < 8 {
        path.high.to_be_bytes()[i]
    } else {
        path.low.to_be_bytes()[i - 8]
    }
}

// The record that announces the path's first `size` bits with a hop, put into the output at `at`. An address has `bytes` bytes.
pub fn put_record(output: &mut [u8], at: usize, bytes: usize, path: Path, size: usize, hop: u32)
    requires { CanPrint output.old at bytes path size hop }
    ensures { output.new ≡ patch at (print bytes (announces (prefix_of (path_bit path) size) hop)) output.old }
{
    // (By number, as `byte_of` asks for the place.)
    for i in 0..bytes {
        output[at + i] = byte_of(path, i);
    }
    let rest = at + bytes;
    let [high, low] = (hop as u16).to_be_bytes();
    // One by one: an array for `copy_from_slice` is put together in memory and read again before all of it is there; a record took 16 ns so, and
    // takes 10.
    output[rest] = size as u8;
    output[rest + 1] = ANNOUNCE;
    output[rest + 2] = high;
    output[rest + 3] = low;
}
