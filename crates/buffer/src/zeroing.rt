// Bytes made zero.
ghost use Rattle.std.specs.Prelude.{◌≡◌, ◌-◌};
ghost use Rattle.buffer.specs.writes.Buf.{put};
ghost use Rattle.buffer.specs.zeroing.Zeros.{zeros, some_in_of};

// Whether a byte is not 0. The loop has one way out, so that the machine takes several bytes at a time.
fn some_in(bytes: &[u8]) -> bool
    ensures { result ≡ some_in_of bytes.now }
{
    let mut all = 0;
    for b in bytes {
        all |= *b;
    }
    all != 0
}

// Zero from place a up to place e, as far as dst reaches. 1,024 bytes that are all zero already are read and not written. The parts are cut
// by place: of `chunks_mut` a proof knows no more than that the slice keeps its length.
pub fn zero_range(dst: &mut [u8], a: usize, e: usize)
    ensures { dst.new ≡ put dst.old a (zeros (e - a)) }
{
    let end = e.min(dst.len());
    if end <= a {
        return;
    }
    let mut p = a;
    while 1024 <= end - p {
        let next = p + 1024;
        if some_in(&dst[p..next]) {
            dst[p..next].fill(0);
        }
        p = next;
    }
    dst[p..end].fill(0);
}
