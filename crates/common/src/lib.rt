// What every crate wants and nothing of RTMS.
#![tactic(auto)]

ghost use Rattle.std.specs.Prelude.{◌≡◌};
ghost use Rattle.std.proofs.lemmas.List.Edits.{sets};
ghost use Rattle.common.specs.Choice.{pick};

pub mod filled;

// 1 where a test holds, for counting. A name for one call of the library's, which docs/PROMISES.md promises (`pick`, the edit `counts_what_fails`).
pub fn one_if(test: bool) -> usize
    ensures { result ≡ pick test 1 0 }
{
    usize::from(test)
}

// Bytes put into a buffer from a place on, one after the other. What would lie past its end is left out.
pub fn put(out: &mut [u8], from: usize, bytes: &[u8])
    ensures { out.new ≡ sets out.old from bytes.now }
{
    let start = from.min(out.len());
    let count = bytes.len().min(out.len() - start);
    out[start..start + count].copy_from_slice(&bytes[..count]);
}
