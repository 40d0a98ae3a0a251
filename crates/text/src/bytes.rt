// Bytes copied.
ghost use Rattle.std.specs.Prelude.{◌+◌, ◌≤◌, length};
ghost use Rattle.laws.specs.Stores.{Wrote};

// Writes bytes at a position, and gives the position past them. Byte by byte, as `table::copy`.
pub fn write_bytes(out: &mut [u8], at: usize, bytes: &[u8]) -> usize
    requires { at + length bytes.now ≤ length out.old }
    ensures { Wrote out.old at bytes.now out.new result }
{
    for i in 0..bytes.len() {
        out[at + i] = bytes[i];
    }
    at + bytes.len()
}
