//! What sees what is found.

ghost use Rattle.path_exec.specs.Handing.{Handed, handed};
ghost use Rattle.path_exec.specs.Receiving.{IsSame, Receiving, TookAs};

use crate::receiver::Took;
use sefl_meaning::Decision;

/// Sees what is found, one after another, each with the decisions that led there. It is answered for as a receiver is.
pub trait Observer {
    type Found: Drop;

    /// The lists that it stands for, or stopped in; how often it stopped; what it takes; and what it puts that into.
    ghost seen: { Self → Receiving (Handed Self.Found) };

    fn see(&mut self, found: Self::Found, decisions: &[Decision]) -> Took
        requires { (seen self.old).Takes (handed decisions.now found) }
        ensures same { IsSame (seen self.old) (seen self.new) }
        ensures took { TookAs (seen self.old) (seen self.new) (handed decisions.now found) result };
}
