//! A receiver that keeps what it takes.

use crate::receiver::{Receiver, Took};

/// The items that were taken, in order.
#[derive(Drop)]
pub struct Kept<T: Drop> {
    pub items: Vec<T>,
}

impl<T: Drop> Receiver for Kept<T> {
    type Item = T;

    ghost use Rattle.std.specs.Prelude.{◌≡◌};

    ghost seen = { λ kept. record {
      StandsFor = λ items. kept.items.items ≡ items;
      StoppedIn = λ items. kept.items.items ≡ items;
      stops = 0;
      target = 0;
      Takes = λ item. Unit {0};
    } };

    fn take(&mut self, item: T) -> Took {
        match self.items.push(item) {
            Ok(()) => Took::More,
            Err(_) => Took::NoMemory,
        }
    }
}
