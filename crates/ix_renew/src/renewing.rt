//! A journal that stands for another one.

ghost use Rattle.std.specs.Prelude.{◌≡◌, ◌≢◌, ◌<◌, ◌≤◌, ◌^◌, [], false, length, Err, IfOk};
ghost use Rattle.std.specs.Prelude.{All, IfErr, OnOk};
ghost use Rattle.ix_values.specs.Texts.{IsAction};
ghost use Rattle.ix_step.specs.inside.Limits.{most_size};
ghost use Rattle.ix_journal.specs.Format.{renewed_journal};
ghost use Rattle.ix_outside.specs.Counts.{Rose};
ghost use Rattle.ix_outside.specs.Crashes.{LeavesTheFile};
ghost use Rattle.ix_outside.specs.SiteState.{OnlyDisk};
ghost use Rattle.ix_renew.specs.Renewal.{OfNewFile};
ghost use Rattle.ix_renew.specs.inside.Renewing.{IsOfTheJournal, LeavesBytes, LeavesNew};
ghost use Rattle.ix_renew.specs.inside.Renewing.{PreventsRenewal, Renews};
ghost use Rattle.ix_store.specs.declared.making.RenewFault.TheVariants as making;

use crate::RenewalFault;
use crate::carrying::carried;
use crate::resting::rest;
use ix_expr::Expression;
use ix_outside::Site;
use ix_store::RenewFault;
use ix_text::text;
use ix_values::Action;
use std::alloc::Global;

/// What a renewed journal stands for.
#[derive(Clone, Copy, Debug, PartialEq, Eq)]
pub struct Renewal {
    /// How many actions were confirmed in the journals before.
    pub actions: u64,
    /// How many boots these journals had.
    pub boots: u64,
    /// How many actions it carries in their place.
    pub carried: usize,
}

/// Makes of the file named `new`, which has no byte, a journal that goes on from the one whose
/// bytes are `journal`, with a short word in place of its history. The limit, 1 to 1,000,000, is
/// the most that the Size of the history's tree may be.
///
/// The faults are met in their order, but `Memory` at any step. Before `There` no call of the site
/// is made. `There` comes exactly where the file named `new` has a byte, and such a file stays,
/// whatever the answer. Whatever fails, and whenever the site stops, what is left of one that had
/// none is the file of a new journal, or the whole renewed one.
pub fn renew<S: Site>(
    alloc: Global,
    site: &mut S,
    expression: Expression,
    limit: usize,
    journal: &[u8],
    new: &str,
) -> Result<Renewal, RenewalFault>
    requires least { 1 ≤ limit }
    requires most { limit ≤ most_size }
    requires attached { (S.state site.old).attached ≡ false }

    // What is carried, or why nothing is, by the file of the journal.
    ensures renewed { IfOk result (λ told. Renews expression limit journal.now new.now told
        (S.state site.new).disk (S.crashes site.new)) }
    ensures refused { IfErr result (PreventsRenewal expression limit journal.now) }

    // What becomes of the new file.
    ensures there { result ≡ Err RenewalFault.There
        → OfNewFile new.now (λ opened now. opened.file ≢ []) (S.state site.new).disk }
    ensures leaves { LeavesNew expression limit journal.now new.now
        (S.state site.new).disk (S.crashes site.new) }
    ensures rests { IfErr result
        (λ why. IsOfTheJournal why → S.state site.new ≡ S.state site.old) }
    ensures failed { result ≡ Err RenewalFault.Disk
        → Rose (S.state site.old).counts.disk (S.state site.new).counts.disk }
    ensures disk { OnlyDisk (S.state site.old) (S.state site.new) }
{
    let text = text(alloc, &expression)?;
    let resting = rest(alloc, expression, limit, journal, &text)?;
    let word = carried(alloc, &resting.engine)?;
    are_actions(&word);
    let renewal = Renewal {
        actions: resting.actions,
        boots: resting.boots,
        carried: word.len(),
    };
    make(alloc, site, new, &text, &word, renewal)?;
    Ok(renewal)
}

/// Each item of a word is an action.
fn are_actions(word: &[Action])
    ensures { All IsAction word.now }
{
    for action in word {
        action.name();
    }
}

/// Attaches the file of this name, and makes the journal in it.
fn make<S: Site>(
    alloc: Global,
    site: &mut S,
    new: &str,
    text: &[u8],
    carried: &[Action],
    renewal: Renewal,
) -> Result<(), RenewFault>
    requires attached { (S.state site.old).attached ≡ false }
    requires short { length text.now < 65536 }
    requires actions { renewal.actions ≤ 2 ^ 63 }
    requires boots { renewal.boots ≤ 2 ^ 63 }

    ensures made { OnOk result (OfNewFile new.now
        (λ opened now. (opened.file ≡ [])
        × (now ≡ renewed_journal text.now carried.now renewal.actions renewal.boots))
        (S.state site.new).disk) }
    ensures settled { OnOk result
        (LeavesTheFile (S.state site.new).disk (S.crashes site.new).now) }
    ensures there { result ≡ Err RenewFault.There
        → OfNewFile new.now (λ opened now. opened.file ≢ []) (S.state site.new).disk }
    ensures leaves { LeavesBytes text.now
        (renewed_journal text.now carried.now renewal.actions renewal.boots) new.now
        (S.state site.new).disk (S.crashes site.new) }
    ensures failed { result ≡ Err RenewFault.Disk
        → Rose (S.state site.old).counts.disk (S.state site.new).counts.disk }
    ensures disk { OnlyDisk (S.state site.old) (S.state site.new) }
{
    site.attach(new)?;
    ix_store::renew(alloc, site, text, carried, renewal.actions, renewal.boots)
}
