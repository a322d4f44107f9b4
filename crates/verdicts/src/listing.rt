// What was found: the first few things, and how many there are in all.
ghost use Rattle.std.specs.Prelude.{◌≡◌, ℕ, ◌+◌, ◌^◌, ◌<◌, [], IfOk, OnOk};
ghost use Rattle.verdicts.specs.Listings.{Noted, Looked, Head};

use std::alloc::{AllocError, Global};

#[derive(Drop)]
pub struct Listing<T> {
    pub first: Vec<T>,
    pub count: usize,
}

impl<T: Copy> Listing<T> {
    pub(crate) fn new(heap: Global) -> Listing<T>
        ensures first { result.first.items ≡ [] }
        ensures count { result.count ≡ 0 }
    {
        Listing {
            first: Vec::new(heap),
            count: 0,
        }
    }

    // What was found at one number, if anything: it is counted, and kept if there are fewer than the most that are wanted.
    fn note(&mut self, most: usize, found: Option<T>) -> Result<(), AllocError>
        requires { self.old.count + 1 < 2 ^ 64 }
        ensures { OnOk result (Noted most found self.old.first.items self.old.count self.new.first.items self.new.count) }
    {
        if let Some(found) = found {
            if self.first.len() < most {
                self.first.push(found)?;
            }
            self.count += 1;
        }
        Ok(())
    }

    // Notes what the check finds at each number below the limit.
    pub(crate) fn look<F: Fn(usize) -> Option<T>>(
        &mut self,
        most: usize,
        limit: usize,
        check: F,
    ) -> Result<(), AllocError>
        requires callable { (i : ℕ) → i < limit → F.pre check i }
        requires fits { self.old.count + limit < 2 ^ 64 }
        ensures { OnOk result (Looked most (F.post check) self.old.first.items self.old.count limit self.new.first.items self.new.count) }
    {
        for i in 0..limit {
            self.note(most, check(i))?;
        }
        Ok(())
    }

    // What the check finds at each number below the limit.
    pub(crate) fn of<F: Fn(usize) -> Option<T>>(
        heap: Global,
        most: usize,
        limit: usize,
        check: F,
    ) -> Result<Listing<T>, AllocError>
        requires { (i : ℕ) → i < limit → F.pre check i }
        ensures { IfOk result (λ l. Looked most (F.post check) [] 0 limit l.first.items l.count) }
    {
        let mut found = Listing::new(heap);
        found.look(most, limit, check)?;
        Ok(found)
    }

    // The first thing, if there is one.
    pub fn head(&self) -> Option<T>
        ensures { Head self.now.first.items result }
    {
        self.first.as_slice().first().copied()
    }
}
