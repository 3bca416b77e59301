// Bytes as they are.
ghost use Rattle.std.specs.Prelude.{[], ◌∷◌};
ghost use Rattle.text.specs.Text.{Puts};

pub fn put_byte(out: &mut [u8], at: usize, byte: u8) -> usize
    ensures { Puts out.old at (byte ∷ []) out.new result }
{
    if at < out.len() {
        out[at] = byte;
        at + 1
    } else {
        out.len()
    }
}

pub fn put_bytes(out: &mut [u8], at: usize, bytes: &[u8]) -> usize
    ensures { Puts out.old at bytes.now out.new result }
{
    let mut end = at.min(out.len());
    for &byte in bytes {
        end = put_byte(out, end, byte);
    }
    end
}
