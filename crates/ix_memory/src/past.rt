//! The calls of a site that were made, for proofs alone.
ghost use Rattle.std.specs.Prelude.{◌≡◌, [], ◌∷◌};
ghost use Rattle.ix_memory.specs.inside.Fate.{effect_where};

use crate::plan::Fate;
use crate::sent::Sent;
use ix_outside::History;
use std::marker::Model;

/// What a call did to the disk.
#[derive(Clone, Copy)]
pub(crate) enum Effect {
    /// It changed neither the file nor what a crash may leave.
    Kept,
    /// It wrote so many bytes at a place, or a front of them.
    Wrote(u64, usize),
    /// It cut the file to a length.
    Cut(u64),
    /// It brought the file to the disk.
    Synced,
    /// It attached the file.
    Attached,
}

impl Effect {
    /// This effect where the call works, and else none.
    pub(crate) fn if_works(self, fate: Fate) -> Effect
        ensures { result ≡ effect_where fate self }
    {
        match fate {
            Fate::Works => self,
            Fate::Fails | Fate::Full => Effect::Kept,
        }
    }
}

/// Each call with its effect, and the file and the sends as they were right before it. It takes no
/// memory.
#[derive(Drop)]
pub(crate) struct Past {
    effects: History<Effect>,
    files: History<Vec<u8>>,
    sends: History<Sent>,
}

impl Model for Past {
    ghost use Rattle.std.specs.Prelude.{List};
    ghost use Rattle.ix_memory.specs.inside.PastCalls.{PastCall, past_calls};

    ghost Value = { List PastCall };

    ghost view = { λ past. past_calls past.effects.items past.files.items past.sends.items };
}

impl Past {
    pub(crate) fn new() -> Past
        ensures { result ≡ [] }
    {
        Past {
            effects: History::new(),
            files: History::new(),
            sends: History::new(),
        }
    }

    /// A call is made with this effect.
    pub(crate) fn add(&mut self, effect: Effect, image: &Vec<u8>, sent: &Sent)
        ensures { self.new ≡ record {
          effect = effect;
          file = image.now.items;
          sent = sent.now.sends.sent;
        } ∷ self.old }
    {
        self.effects = self.effects.and(&effect);
        self.files = self.files.and(image);
        self.sends = self.sends.and(sent);
    }
}
