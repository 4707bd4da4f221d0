//! The way to a manager.
ghost use Rattle.std.specs.Prelude.{◌≡◌, []};
ghost use Rattle.ix_proto.specs.Requests.{PlainRequest};
ghost use Rattle.ix_client.specs.Links.{Calls, IsCall, IsLineOf, LinkState};
ghost use Rattle.ix_client.specs.Sound.{IsSoundWhereTold};
ghost use Rattle.ix_client.specs.Links.{MakesCall, NoFewer};

use arrayvec::ArrayVec;

/// A call of a link failed.
#[derive(Clone, Copy, Debug, PartialEq, Eq)]
pub struct LinkFailed;

/// The way to a manager: requests go out, and the first line of each reply comes back.
///
/// A link counts its calls, those that failed, and the lines that came and weren't an expected
/// reply. Each count goes up to 2^64 - 1, and one that stands there counts as risen. It keeps the
/// line of its last call (`keep_line`). A link may tell the manager behind it: its expression, its
/// limit and the state of its machine.
pub trait Link {
    /// What a proof knows of the link.
    ghost state: { Self → LinkState };

    /// Sends the line of an ask, a confirm, a cancel or an outcome, which is given with its byte
    /// 10, and puts the first line of the reply into `out`, which is empty, without its byte 10.
    ///
    /// Before the manager takes the request, any time may pass, it may answer others, and it may be
    /// started again. After a failure the request was taken or not.
    fn call(&mut self, line: &[u8], out: &mut ArrayVec<u8, 256>) -> Result<(), LinkFailed>
        requires empty { out.old.items ≡ [] }
        requires line { IsCall line.now }
        ensures once { MakesCall line.now (state self.old) (state self.new) }
        ensures counts { NoFewer (state self.old) (state self.new) }
        ensures calls { (asked : PlainRequest) → IsLineOf asked line.now
            → Calls asked result out.new.items (state self.old) (state self.new) };

    /// A manager that is told is in a sound state.
    ghost sound: { (link : Self) → IsSoundWhereTold (state link).told };
}
