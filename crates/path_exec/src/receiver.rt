//! What takes records as they are found.

ghost use Rattle.path_exec.specs.Receiving.{IsSame, Receiving, TookAs};

/// What a receiver answers.
#[derive(Clone, Copy)]
pub enum Took {
    /// It stands for one item more.
    More,
    /// It stopped in the list with that item, for a cause of its own.
    Stop,
    /// There is no memory, and it stands for what it stood for before.
    NoMemory,
}

/// Takes items one by one.
pub trait Receiver {
    type Item: Drop;

    /// The lists that it stands for, or stopped in; how often it stopped; which items it takes; and what it puts them into.
    ghost seen: { Self → Receiving Self.Item };

    fn take(&mut self, item: Self::Item) -> Took
        requires { (seen self.old).Takes item }
        ensures same { IsSame (seen self.old) (seen self.new) }
        ensures took { TookAs (seen self.old) (seen self.new) item result };
}
