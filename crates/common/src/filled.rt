// Items in the first places of an array, in their order.
ghost use Rattle.std.specs.Prelude.{◌≡◌, []};
ghost use Rattle.common.specs.Filled.{items_of, filled_of, pushed_of};

// As many items as the count says, the first at place 0. An array and a count, since all memory is fixed: there is no heap.
#[derive(Clone, Copy)]
pub struct Filled<T, const N: usize> {
    pub items: [T; N],
    pub count: usize,
}

impl<T: Copy, const N: usize> Filled<T, N> {
    // None yet: what lies in the free places is the filler.
    pub fn empty(filler: T) -> Filled<T, N>
        ensures { result ≡ filled_of N filler [] }
    {
        Filled {
            items: [filler; N],
            count: 0,
        }
    }

    // One item more, behind the others. Where all places are taken it is left out.
    #[tactic(auto, unfolding(crate::specs::Filled::pushed_of))]
    pub fn put(&mut self, item: T)
        ensures { self.new ≡ pushed_of N self.old item }
    {
        if self.count < N {
            self.items[self.count] = item;
            self.count += 1;
        }
    }

    // The same for who holds the items by value.
    pub fn push(mut self, item: T) -> Filled<T, N>
        ensures { result ≡ pushed_of N self item }
    {
        self.put(item);
        self
    }

    // Those that are there, in order.
    pub fn standing(&self) -> &[T]
        ensures { result.now ≡ items_of N self.now }
    {
        &self.items[..self.count.min(N)]
    }
}
