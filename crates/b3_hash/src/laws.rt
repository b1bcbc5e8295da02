// Laws over lists of calls: an input may be cut in any way, and its output be read in any order.

ghost use Rattle.std.specs.Prelude.{◌≡◌, ℕ, ◌+◌, ◌^◌, ◌<◌, All, length, sum_by};
ghost use Rattle.b3_core.specs.Tree.{top};
ghost use Rattle.b3_hash.specs.Laws.{concatenated, bytes_read};

use crate::hasher::Hasher;
use crate::output::Xof;
use b3_core::Mode;

/// The output of an input of fewer than 2^64 bytes that comes in these pieces: that of the input as a
/// whole, however it is cut.
pub fn output_of_pieces(mode: Mode, pieces: &[&[u8]]) -> Xof
    requires { length (concatenated pieces.now) < 2 ^ 64 }
    ensures { result ≡ record { node = top mode 0 (concatenated pieces.now); place = 0 } }
{
    let mut hasher = Hasher::new(mode);
    for piece in pieces {
        hasher.update(piece).unwrap();
    }
    hasher.finish()
}

/// Reads the output at a list of places, at each so many bytes, one after the other into `out`: these
/// are the stream's bytes from that place, whatever was read before. No read passes place 2^64 - 1.
pub fn read_places(output: &mut Xof, reads: &[(u64, usize)], out: &mut [u8])
    requires within { All (λ read. read.0 + read.1 < 2 ^ 64) reads.now }
    requires room { length out.old ≡ sum_by (λ read. read.1) reads.now }
    ensures bytes { out.new ≡ bytes_read output.old.node reads.now }
    ensures node { output.new.node ≡ output.old.node }
{
    let mut done = 0;
    for read in reads {
        let (place, len) = *read;
        output.seek(place);
        output.fill(&mut out[done..done + len]).unwrap();
        done += len;
    }
}
