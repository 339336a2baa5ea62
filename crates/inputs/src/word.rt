// One word of a set: 64 inputs.
ghost use Rattle.std.specs.Prelude.{◌≡◌, ◌+◌, ◌*◌, ltb};
ghost use Rattle.inputs.specs.InputSet.{word_of};

// The inputs below a limit, in one of the words.
pub fn below(limit: u16, at: u16) -> u64
    ensures { result ≡ word_of 64 (λ k. ltb (64 * at + k) limit) }
{
    let bits = u32::from(limit).saturating_sub(64 * u32::from(at));
    if bits < 64 { (1 << bits) - 1 } else { u64::MAX }
}
