// How many of a kind are declared.
ghost use Rattle.std.specs.Prelude.{◌≡◌, ◌+◌, ◌<◌, ◌≤◌, Ok, IfOk, nat_lt};
ghost use Rattle.rights.specs.Refusals.{checked, demand, settle};
ghost use Rattle.rights.specs.declared.refusal.Refusal.TheVariants.{LimitReached};
ghost use Rattle.rows.specs.Lists.{all_below};

use rights::kind::Numbered;
use rights::{Number, Refusal};
use std::marker::{Model, PhantomData};

// How many of a kind are declared, and never more than there may be: the numbers below this one may be used.
#[derive(Drop)]
pub(crate) struct Count<K: Numbered> {
    count: usize,
    kind: PhantomData<K>,
}

impl<K: Numbered> Model for Count<K> {
    ghost use Rattle.std.specs.Prelude.{ℕ, ◌≤◌};

    ghost Value = { ℕ };

    ghost view = { λ c. c.count };

    ghost invariant = { λ c. c.count ≤ K.LIMIT };
}

impl<K: Numbered> Count<K> {
    pub(crate) fn none() -> Count<K>
        ensures { result ≡ 0 }
    {
        Count {
            count: 0,
            kind: PhantomData,
        }
    }

    // One more. The answer is its number.
    pub(crate) fn add(&mut self) -> Result<usize, Refusal>
        ensures value { (self.new, result) ≡ settle self.old (demand (nat_lt self.old K.LIMIT) LimitReached (Ok (self.old + 1, self.old))) }
        ensures few { self.new ≤ K.LIMIT }
    {
        let number = self.count;
        if number >= K::LIMIT {
            return Err(Refusal::LimitReached);
        }
        self.count = number + 1;
        Ok(number)
    }

    // The number, if it is declared.
    pub(crate) fn checked(&self, number: usize) -> Result<Number<K>, Refusal>
        ensures value { result ≡ checked self.now number }
        ensures small { IfOk result (λ n. n < K.LIMIT) }
    {
        if number >= self.count {
            return Err(Refusal::OutOfRange);
        }
        Number::new(number)
    }

    // Is each of these numbers declared?
    pub(crate) fn covers(&self, numbers: &[usize]) -> bool
        ensures value { result ≡ all_below self.now numbers.now }
        ensures few { self.now ≤ K.LIMIT }
    {
        let count = self.count;
        numbers.iter().all(|number| *number < count)
    }
}
