//! A workload of calls to examinations and their performance, generated from a seed.
#![tactic(auto)]

ghost use Rattle.std.specs.Prelude.{◌≡◌};

mod asks;
pub mod laws;

use asks::{action_on, number_behind};
use ix_values::Action;
use rand_core::utils::NextWord;
use rand_pcg::Lcg64Xsh32;
use std::marker::Model;

/// The expression that the asks of a workload are made for: each patient is called to an
/// examination, which is then performed, one examination at a time; and so is each examination
/// with its patients.
pub const EXAMINATIONS: &[u8] = b"all $p *(any $x (call($p,$x) - perform($p,$x))) @ \
all $x *(any $p (call($p,$x) - perform($p,$x)))";

/// The stream of the generator.
const STREAM: u64 = 1;

/// How many patients there are, `p0` to `p39`.
const PATIENTS: usize = 40;

/// How many examinations there are, `x0` to `x9`.
const EXAMINATION_COUNT: usize = 10;

/// A workload: a generator of numbers, and for each patient the examination of its open call.
#[derive(Drop)]
pub struct Workload {
    generator: Lcg64Xsh32,
    calls: [Option<u8>; PATIENTS],
}

impl Model for Workload {
    ghost use Rattle.std.specs.Prelude.{◌≡◌, true};
    ghost use Rattle.ix_generate.specs.Workload.{PlainWorkload};
    ghost use Rattle.ix_generate.specs.inside.Calls.{are_examinations};

    ghost Value = { PlainWorkload };

    ghost view = { λ w. record { generator = w.generator; calls = w.calls } };

    ghost invariant = { λ w. are_examinations w.calls ≡ true };
}

impl Workload {
    ghost use Rattle.std.specs.Prelude.{ℕ};
    ghost use Rattle.ix_generate.specs.Workload.{Ask, IsAsk, PlainWorkload, asked_action};
    ghost use Rattle.ix_generate.specs.Workload.{begun_workload};
    ghost use Rattle.ix_generate.specs.Workload.{behind_draw, drawn, with_granted};

    /// The workload of a seed, in which no call is open.
    pub fn new(seed: u64) -> Workload
        ensures { result ≡ begun_workload seed }
    {
        Workload {
            generator: Lcg64Xsh32::new(seed, STREAM),
            calls: [None; PATIENTS],
        }
    }

    /// The next ask: of a patient that is drawn, the open call is performed; one who has none is
    /// called to an examination that is drawn. Which calls are open stays.
    pub fn draw(&mut self) -> Action
        ensures action { result ≡ asked_action (drawn self.old) }
        ensures ask { IsAsk (drawn self.old) }
        ensures next { self.new ≡ behind_draw self.old }
    {
        let number = self.generator.next_word() as usize;
        let patient = number % PATIENTS;
        match self.calls[patient] {
            Some(called) => action_on(b"perform", patient, usize::from(called)),
            None => action_on(b"call", patient, number / PATIENTS % EXAMINATION_COUNT),
        }
    }

    /// Notes that an ask was granted: a call is then open, and one that was performed isn't any
    /// more. The generator stays.
    pub fn granted(&mut self, action: &Action)
        requires { (ask : Ask) × IsAsk ask × (action.now ≡ asked_action ask) }
        ensures { (ask : Ask) → IsAsk ask → action.now ≡ asked_action ask
            → self.new ≡ with_granted self.old ask }
    {
        let values = action.values();
        let patient = usize::from(number_behind(values[0].bytes()));
        let examination = number_behind(values[1].bytes());
        let is_call = action.name().bytes() == b"call".as_slice();
        self.calls[patient] = is_call.then_some(examination);
    }
}
