ghost use Rattle.std.specs.Prelude.{◌≡◌, [], ◌∷◌, ◌++◌, ℕ, List, remove, MatchOption, MatchResult};
ghost use Rattle.archive_box.specs.declared.number.Number.{Number};
ghost use Rattle.box_desk.specs.Hands.{Latest};
ghost use Rattle.box_desk.specs.declared.problems.Problem.TheVariants.{NoNumber};
ghost use Rattle.std.specs.Option.{option_to_list};

use crate::problems::Problem;
use archive_box::{ArchiveBox, Number};
use cipher::TwoWayCipher;
use shelf::Shelf;
use std::alloc::{AllocError, AllocFailed, Global};
use std::collections::VecDeque;

/// The numbers in hand, in the order in which they were drawn.
pub struct Hand {
    numbers: VecDeque<Number>,
}

impl Hand {
    /// No numbers.
    pub fn new(heap: Global) -> Hand
        ensures { result.numbers.items ≡ [] }
    {
        Hand {
            numbers: VecDeque::new(heap),
        }
    }

    /// Puts a number in last; with no memory for it, it is ended by this box.
    pub fn put<C: TwoWayCipher, S: Shelf>(
        &mut self,
        ender: &mut ArchiveBox<C, S>,
        number: Number,
    ) -> Result<(), AllocError>
        ensures { MatchResult result
            (λ _. self.new.numbers.items ≡ self.old.numbers.items ++ number ∷ [])
            (λ _. self.new.numbers.items ≡ self.old.numbers.items) }
    {
        match self.numbers.push_back(number) {
            Ok(()) => Ok(()),
            Err(AllocFailed { value }) => {
                let _ = ender.void(value);
                Err(AllocError)
            }
        }
    }

    /// The value of the first one.
    pub fn first(&self) -> Option<u64>
        ensures { MatchOption result (self.now.numbers.items ≡ [])
            (λ value. (number : Number) × (rest : List Number)
            × (self.now.numbers.items ≡ number ∷ rest) × (number.value ≡ value)) }
    {
        Some(self.numbers.front()?.value())
    }

    /// The latest number in hand with this value.
    pub(crate) fn take(&mut self, value: u64) -> Result<Number, Problem>
        ensures value { MatchResult result (λ number. number.value ≡ value)
            (λ problem. problem ≡ NoNumber value) }
        ensures others { MatchResult result
            (λ _. (at : ℕ) × Latest value self.old.numbers.items (Some at)
            × (self.new.numbers.items ≡ remove self.old.numbers.items at))
            (λ _. Latest value self.old.numbers.items None × (self.new ≡ self.old)) }
    {
        match self.latest(value) {
            Some(at) => match self.numbers.remove(at) {
                Some(number) => Ok(number),
                None => Err(Problem::NoNumber(value)),
            },
            None => Err(Problem::NoNumber(value)),
        }
    }

    // Where it stands.
    fn latest(&self, value: u64) -> Option<usize>
        ensures { Latest value self.now.numbers.items result }
    {
        let mut latest = None;
        for at in 0..self.numbers.len() {
            if let Some(number) = self.numbers.get(at)
                && number.value() == value
            {
                latest = Some(at);
            }
        }
        latest
    }

    /// Takes the first one.
    pub fn take_first(&mut self) -> Option<Number>
        ensures { self.old.numbers.items ≡ option_to_list result ++ self.new.numbers.items }
    {
        self.numbers.pop_front()
    }

    /// Ends each number in hand, by a box that it may not be out in: it is ended all the same.
    pub fn end<C: TwoWayCipher, S: Shelf>(self, ender: &mut ArchiveBox<C, S>) {
        let Hand { mut numbers } = self;
        while let Some(number) = numbers.pop_front() {
            let _ = ender.void(number);
        }
        numbers.destroy_empty();
    }
}
