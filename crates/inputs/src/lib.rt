// Sets of inputs 0..255: what an owner's mask, the latches and the answer of AWAITINTERRUPT are.
#![tactic(auto)]

ghost use Rattle.std.specs.Prelude.{◌≡◌, EachIndex, slice_index};
ghost use Rattle.inputs.specs.InputSet.{has_of, empty_of, single_of, below_of, insert_of, remove_of, either_of, both_of, except_of, run_of, count_of, next_of};

mod word;

use std::array;

// Input n is bit n mod 64 of word n / 64.
#[derive(Clone, Copy)]
pub struct InputSet {
    pub words: [u64; 4],
}

// The set of one input.
#[tactic(auto, using(crate::proofs::Sets::run_single))]
fn single(input: u8) -> InputSet
    ensures { result ≡ single_of input }
{
    InputSet::run(input, input)
}

// The set of the inputs below a limit.
#[tactic(auto, unfolding(crate::specs::InputSet::below_of, crate::specs::InputSet::set_of))]
fn below(limit: u16) -> InputSet
    ensures { result ≡ below_of limit }
{
    InputSet {
        words: array::from_fn(|at| word::below(limit, at as u16)),
    }
}

impl InputSet {
    #[tactic(auto, unfolding(crate::specs::InputSet::empty_of, crate::specs::InputSet::set_of, crate::specs::InputSet::word_of))]
    pub fn empty() -> InputSet
        ensures { result ≡ empty_of }
    {
        InputSet { words: [0; 4] }
    }

    // The inputs first to last; none where first is beyond last.
    #[tactic(auto, using(crate::proofs::Sets::except_below))]
    pub fn run(first: u8, last: u8) -> InputSet
        ensures { result ≡ run_of first last }
    {
        below(last as u16 + 1).except(below(first as u16))
    }

    #[tactic(auto, using(crate::proofs::Bits::bit_shifted), unfolding(crate::specs::InputSet::has_of))]
    pub fn has(self, input: u8) -> bool
        ensures { result ≡ has_of self input }
    {
        let word = self.words[(input / 64) as usize];
        (word >> (input % 64)) % 2 == 1
    }

    #[tactic(auto, using(crate::proofs::Sets::either_single))]
    pub fn insert(self, input: u8) -> InputSet
        ensures { result ≡ insert_of self input }
    {
        self.either(single(input))
    }

    #[tactic(auto, using(crate::proofs::Sets::except_single))]
    pub fn remove(self, input: u8) -> InputSet
        ensures { result ≡ remove_of self input }
    {
        self.except(single(input))
    }

    // The set whose words are those that an operator makes of the words of two sets. The four are written out: by `array::from_fn`, as in `below`, it
    // would be no plainer, and logs of mixed calls take 2 to 4 percent longer.
    fn combined<F: Fn(u64, u64) -> u64>(self, other: InputSet, operator: F) -> InputSet
        requires { F.IsAlwaysCallable operator }
        ensures { EachIndex result.words (λ at. F.post operator (slice_index self.words at) (slice_index other.words at) (slice_index result.words at)) }
    {
        let a = self.words;
        let b = other.words;
        InputSet {
            words: [
                operator(a[0], b[0]),
                operator(a[1], b[1]),
                operator(a[2], b[2]),
                operator(a[3], b[3]),
            ],
        }
    }

    // The inputs that are in one set or the other.
    pub fn either(self, other: InputSet) -> InputSet
        ensures { result ≡ either_of self other }
    {
        self.combined(other, |a, b| a | b)
    }

    // The inputs that are in both sets.
    pub fn both(self, other: InputSet) -> InputSet
        ensures { result ≡ both_of self other }
    {
        self.combined(other, |a, b| a & b)
    }

    // The inputs that are in this set and not in the other.
    pub fn except(self, other: InputSet) -> InputSet
        ensures { result ≡ except_of self other }
    {
        self.combined(other, |a, b| a ^ a & b)
    }

    // How many inputs the set holds: the ones of its words.
    pub fn count(self) -> u32
        ensures { result ≡ count_of self }
    {
        self.words.iter().map(|word| word.count_ones()).sum()
    }

    // The lowest input, if there is one: the trailing zeros of the first word that is not 0. A host that takes it out and asks
    // again, as often as the count says, walks the set in rising order.
    pub fn next(self) -> Option<u8>
        ensures { result ≡ next_of self }
    {
        for (at, word) in self.words.iter().enumerate() {
            if *word != 0 {
                return Some(64 * at as u8 + word.trailing_zeros() as u8);
            }
        }
        None
    }
}
