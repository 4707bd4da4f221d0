//! The printer of actions.

ghost use Rattle.std.specs.Prelude.{◌≡◌, ◌<◌, ◌≤◌, [], ◌∷◌, ◌++◌, length};
ghost use Rattle.arrayvec.specs.ArrayVec.{array_vec_len};
ghost use Rattle.ix_values.specs.Laws.{TextsTellActionsApart};
ghost use Rattle.ix_values.specs.PlainAction.{text_of};
ghost use Rattle.ix_values.specs.inside.FirstWord.{opened};
ghost use Rattle.ix_values.specs.Texts.{IsAction};

use crate::actions::Action;
use crate::values::Value;
use arrayvec::ArrayVec;
use ix_lines::append;

impl Action {
    /// Writes the text of the action, at most 165 bytes, into `out`, which is empty.
    pub fn write(&self, out: &mut ArrayVec<u8, 168>)
        requires { out.old.items ≡ [] }
        ensures text { out.new.items ≡ text_of self.now }
        ensures short { array_vec_len out.new ≤ 165 }
        ensures valid { IsAction self.now }
    {
        append(out, self.name().bytes());
        match self.values() {
            [] => {}
            [front @ .., last] => write_values(out, front, last),
        }
    }
}

fn write_values(out: &mut ArrayVec<u8, 168>, front: &[Value], last: &Value)
    requires room { array_vec_len out.old ≤ 32 }
    requires few { length front.now < 4 }
    ensures text { out.new.items ≡ (opened out.old.items front.now ++ last.now) ++ 41 ∷ [] }
    ensures short { array_vec_len out.new ≤ 165 }
{
    out.push(b'(');
    for value in front {
        append(out, value.bytes());
        out.push(b',');
    }
    append(out, last.bytes());
    out.push(b')');
}

/// Two actions with one text are the same action, so a text that is printed
/// reads back as its action.
pub fn texts_tell_actions_apart()
    ensures { TextsTellActionsApart }
{}
