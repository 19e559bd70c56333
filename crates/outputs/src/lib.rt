// Bytes written into a lent output.
#![tactic(auto)]

ghost use Rattle.std.specs.Prelude.{◌≡◌, ◌+◌, leb, length};
ghost use Rattle.outputs.specs.Outputs.{put_at};

// Writes the bytes into the output from a position on, if there is room for all of them: whether there is.
// Kept (6): the output whole and a position in it, since the clause is of all its bytes.
#[tactic(auto, using(crate::proofs::Laws::put_none, crate::proofs::Laws::put_copied))]
pub fn put(bytes: &[u8], output: &mut [u8], at: usize) -> bool
    ensures answer { result ≡ leb (at + length bytes.now) (length output.old) }
    ensures output { output.new ≡ put_at output.old at bytes.now }
{
    if output.len() < at || output.len() - at < bytes.len() {
        return false;
    }
    let end = at + bytes.len();
    output[at..end].copy_from_slice(bytes);
    true
}
