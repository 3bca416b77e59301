// Parts of cells.
ghost use Rattle.std.specs.Prelude.{◌≡◌};
ghost use Rattle.vector_text.specs.Cases.{part, before_byte};

// The cells from position `from` to before `to`, as far as there are any.
pub(crate) fn part<T>(cells: &[T], from: usize, to: usize) -> &[T]
    ensures { result.now ≡ part from to cells.now }
{
    let end = to.min(cells.len());
    let start = from.min(end);
    &cells[start..end]
}

// What stands before the first byte `stop`, all bytes where there is none.
pub(crate) fn before(bytes: &[u8], stop: u8) -> &[u8]
    ensures { result.now ≡ before_byte stop bytes.now }
{
    let end = bytes
        .iter()
        .position(|&byte| byte == stop)
        .unwrap_or(bytes.len());
    &bytes[..end]
}
