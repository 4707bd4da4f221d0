//! A link to a manager over a site in memory.
ghost use Rattle.std.specs.Prelude.{◌≡◌, ◌≤◌, ◌<◌, ◌+◌, ◌-◌, ◌^◌, ◌++◌, [], ◌∷◌, true, false};
ghost use Rattle.std.specs.Prelude.{◌⊎◌, List, ℕ, length, is_some, IfErr, IfOk, IfSome, IsErr};
ghost use Rattle.std.specs.Prelude.{OnOk, None, Ok, Some};
ghost use Rattle.ix_outside.specs.Counts.{Rose, one_more};
ghost use Rattle.ix_memory.specs.inside.MemorySiteState.{crashes_of, state_of};
ghost use Rattle.ix_parse.specs.Faults.{StandsFor};
ghost use Rattle.ix_proto.specs.Requests.{PlainRequest};
ghost use Rattle.ix_step.specs.inside.Limits.{most_size};
ghost use Rattle.ix_expr.specs.Form.{Form};
ghost use Rattle.ix_manager.specs.inside.OverSite.{FitsSite};
ghost use Rattle.ix_client.specs.Links.{Calls, IsCall, IsExpected, IsLineOf, IsLineWith};
ghost use Rattle.ix_client.specs.Links.{NoFewer};
ghost use Rattle.ix_manager.specs.Handled.{ManagerState};
ghost use Rattle.ix_client.specs.Links.{MakesCall};
ghost use Rattle.ix_client.specs.inside.ManagerCalls.{CallsManager, CountsCall, CountsNone};
ghost use Rattle.ix_client.specs.inside.ManagerCalls.{FailsToStart, MakesNone};
ghost use Rattle.ix_client.specs.inside.ManagerLinks.{IsManagerWhere, IsRunEnded, NotesStay};
ghost use Rattle.ix_client.specs.inside.ManagerLinks.{link_state, call_noted, told_at, told_by};
ghost use Rattle.ix_client.specs.inside.Passing.{EndsInLine, ExchangesOver, IsShortLine};
ghost use Rattle.ix_client.specs.inside.Passing.{KeepsAsked};
ghost use Rattle.ix_client.specs.inside.Passing.{StartedFrom};
ghost use Rattle.ix_client.specs.inside.Starting.{TellsStarted};
ghost use Rattle.ix_client.specs.lemmas.SoundTold.{told_is_sound};

use crate::expected::is_expected;
use crate::lines::keep_line;
use crate::link::{Link, LinkFailed};
use arrayvec::ArrayVec;
use ix_manager::{Manager, StartFault};
use ix_memory::MemorySite;
use ix_outside::{Event, EventKind, Site};
use ix_parse::laws::texts_stand_for_one_expression;
use ix_values::texts_tell_tickets_apart;
use std::alloc::Global;
use std::marker::Model;

/// The name of the file that is attached.
const JOURNAL: &str = "journal";

/// A manager takes an event as long as the number of its next ticket is below this.
const MOST_TICKETS: u64 = 1 << 63;

/// The most bytes of a line, without its byte 10.
const MOST_BYTES: usize = 512;

/// How a request went.
#[derive(Clone, Copy, PartialEq, Eq)]
enum Passed {
    /// Its reply came.
    Answered,
    /// A reply came that ended the manager: the disk failed.
    Ended,
    /// No reply came.
    Lost,
}

/// A link to a manager in memory, whose calls fail where they are told to. After a call that
/// failed, and after one that the manager answered with `refused 91 disk`, the manager is started
/// again from what the file of its site keeps. Where that fails, which is one more fault, no
/// manager is left, and each further call fails.
#[derive(Drop)]
pub struct ManagerLink {
    alloc: Global,
    text: Vec<u8>,
    limit: usize,
    manager: Option<Manager>,
    site: MemorySite,
    fail: Vec<(u64, bool)>,
    calls: u64,
    line: ArrayVec<u8, 256>,
    faults: u64,
    balks: u64,
}

impl Model for ManagerLink {
    ghost use Rattle.std.specs.Coded.{codes};
    ghost use Rattle.ix_expr.specs.lemmas.FormCode.{form_code};
    ghost use Rattle.ix_client.specs.inside.ManagerLinks.{ManagerLinkState, IsLinked};

    ghost Value = { ManagerLinkState };

    ghost coded = { Prim.hlevel (codes, form_code) };

    ghost view = { λ l. record {
      text = l.text.items;
      limit = l.limit;
      manager = l.manager;
      site = l.site;
      fail = l.fail.items;
      calls = l.calls;
      line = l.line.items;
      faults = l.faults;
      balks = l.balks;
    } };

    ghost invariant = { λ l. IsLinked l.text.items l.limit l.manager l.site };
}

impl ManagerLink {
    /// Attaches the file of the site and starts the manager of the text's expression from it. Each
    /// pair of `fail` names a call, counted from 0, that fails: behind its step where the pair says
    /// true, and else in front of it. The first pair of a call counts.
    ///
    /// `Disk` may come over any file, and so may `Memory`. Each other fault is that of the start of
    /// a manager from the file, where the site tells it.
    pub fn new(
        alloc: Global,
        text: &[u8],
        limit: usize,
        mut site: MemorySite,
        fail: Vec<(u64, bool)>,
    ) -> Result<ManagerLink, StartFault>
        requires text { (x : Form) × StandsFor text.now x }
        requires least { 1 ≤ limit }
        requires most { limit ≤ most_size }
        requires attached { site.attached ≡ false }
        ensures calls { IfOk result (λ l. l.calls ≡ 0) }
        ensures line { IfOk result (λ l. l.line ≡ []) }
        ensures faults { IfOk result (λ l. l.faults ≡ 0) }
        ensures balks { IfOk result (λ l. l.balks ≡ 0) }
        ensures text { IfOk result (λ l. l.text ≡ text.now) }
        ensures limit { IfOk result (λ l. l.limit ≡ limit) }
        ensures told { IfOk result (λ l. l.site.told ≡ site.told) }
        ensures fail { IfOk result (λ l. l.fail ≡ fail.items) }
        ensures tells { site.told ≡ true → IfOk result
            (λ l. TellsStarted text.now limit site.image (link_state l)) }
        ensures none { site.told ≡ true → IfErr result (MakesNone text.now limit site.image) }
    {
        let Ok(kept) = text.to_vec(alloc) else {
            return Err(StartFault::Memory);
        };
        if site.attach(JOURNAL).is_err() {
            return Err(StartFault::Disk);
        }
        match start(alloc, &kept, limit, &mut site) {
            Ok(manager) => Ok(ManagerLink {
                alloc,
                text: kept,
                limit,
                manager: Some(manager),
                site,
                fail,
                calls: 0,
                line: ArrayVec::new(),
                faults: 0,
                balks: 0,
            }),
            Err(fault) => Err(fault),
        }
    }

    /// Makes a call, as each link does. Where there is a manager, the call fails where it is told
    /// to. After a failure, and after `refused 91 disk`, the manager is started again, and where
    /// that fails, one more fault is counted and none is left.
    pub fn make_call(&mut self, line: &[u8], out: &mut ArrayVec<u8, 256>) -> Result<(), LinkFailed>
        requires empty { out.old.items ≡ [] }
        requires line { IsCall line.now }
        ensures once { MakesCall line.now (link_state self.old) (link_state self.new) }
        ensures counts { NoFewer (link_state self.old) (link_state self.new) }
        ensures calls { (asked : PlainRequest) → IsLineOf asked line.now
            → Calls asked result out.new.items (link_state self.old) (link_state self.new) }
        ensures fail { self.new.fail ≡ self.old.fail }
        ensures went { (m : ManagerState) → self.old.manager ≡ Some m → (asked : PlainRequest)
            → IsLineOf asked line.now
            → CallsManager asked result out.new.items self.old self.new }
        ensures none { self.old.manager ≡ None → IsErr result }
    {
        let failing = self.note(line);
        if !self.has_manager() {
            self.count_fault();
            return Err(LinkFailed);
        }
        match failing {
            None => self.pass_on(line, out),
            Some(false) => self.fail(),
            Some(true) => self.fail_behind(line, out),
        }
    }

    /// A link that has a manager tells it, as long as its site tells its contents.
    pub fn tells(&self)
        ensures { self.now.site.told ≡ true → (m : ManagerState) → self.now.manager ≡ Some m
            → (link_state self.now).told ≡ Some (told_by m) }
    {
        self.manages();
    }

    /// Whether there is a manager. There is none once one could not be started again.
    pub fn has_manager(&self) -> bool
        ensures { result ≡ is_some self.now.manager }
    {
        self.manager.is_some()
    }

    /// How many calls failed, and starts again.
    pub fn faults(&self) -> u64
        ensures { result ≡ self.now.faults }
    {
        self.faults
    }

    /// The site of the manager, with the file that it keeps.
    pub fn site(&self) -> &MemorySite
        ensures { result.now ≡ self.now.site }
    {
        &self.site
    }

    /// What the link's manager is to its text, its limit and its site.
    fn manages(&self)
        ensures { IsManagerWhere self.now.text self.now.limit self.now.manager self.now.site }
    {
        let _ = &self.alloc;
    }

    /// Notes a call with this line. Whether it is told to fail, and then whether behind its step.
    fn note(&mut self, line: &[u8]) -> Option<bool>
        requires { IsCall line.now }
        ensures noted { self.new ≡ call_noted line.now self.old }
        ensures failing { result ≡ told_at self.old.calls self.old.fail }
    {
        let failing = failure_at(&self.fail, self.calls);
        self.calls = self.calls.saturating_add(1);
        self.line = keep_line(line);
        failing
    }

    /// Passes a request on to the manager, which is kept where it may go on.
    fn exchange(&mut self, line: &[u8], out: &mut ArrayVec<u8, 256>) -> Passed
        requires empty { out.old.items ≡ [] }
        requires line { IsCall line.now }
        ensures text { self.new.text ≡ self.old.text }
        ensures limit { self.new.limit ≡ self.old.limit }
        ensures notes { NotesStay self.old self.new }
        ensures faults { self.new.faults ≡ self.old.faults }
        ensures balks { self.new.balks ≡ self.old.balks }
        ensures keeps { (m : ManagerState) → self.old.manager ≡ Some m
            → (asked : PlainRequest) → IsLineOf asked line.now
            → ExchangesOver asked result out.new.items m self.old self.new }
    {
        let Some(manager) = self.manager.take() else {
            return Passed::Lost;
        };
        let (kept, passed) = pass(self.alloc, manager, &mut self.site, line, out);
        self.manager = kept;
        passed
    }

    /// Starts the manager again. Where that fails there is none, and one more fault.
    fn start_again(&mut self)
        ensures notes { NotesStay self.old self.new }
        ensures faults { self.old.faults ≤ self.new.faults }
        ensures counted { CountsNone self.new.manager self.old.faults self.new.faults }
        ensures balks { self.new.balks ≡ self.old.balks }
        ensures told { self.new.site.told ≡ self.old.site.told }
        ensures manages { IsManagerWhere self.old.text self.old.limit self.old.manager
            self.old.site }
        ensures started { (n : ManagerState) → self.new.manager ≡ Some n
            → StartedFrom self.old.text self.old.limit n self.old.site self.new.site }
    {
        let manager = start_or_none(self.alloc, &self.text, self.limit, &mut self.site);
        if manager.is_none() {
            self.faults = self.faults.saturating_add(1);
        }
        self.manager = manager;
    }

    /// A call that fails in front of its step.
    fn fail(&mut self) -> Result<(), LinkFailed>
        ensures notes { NotesStay self.old self.new }
        ensures counts { NoFewer (link_state self.old) (link_state self.new) }
        ensures calls { (m : ManagerState) → self.old.manager ≡ Some m → (asked : PlainRequest)
            → Calls asked result [] (link_state self.old) (link_state self.new) }
        ensures failed { IsErr result }
        ensures counted { Rose self.old.faults self.new.faults }
        ensures balks { self.new.balks ≡ self.old.balks }
        ensures started { (n : ManagerState) → self.new.manager ≡ Some n
            → StartedFrom self.old.text self.old.limit n self.old.site self.new.site }
    {
        texts_stand_for_one_expression();
        self.start_again();
        self.count_fault();
        Err(LinkFailed)
    }

    /// A call that fails behind its step.
    fn fail_behind(&mut self, line: &[u8], out: &mut ArrayVec<u8, 256>) -> Result<(), LinkFailed>
        requires empty { out.old.items ≡ [] }
        requires line { IsCall line.now }
        ensures notes { NotesStay self.old self.new }
        ensures counts { NoFewer (link_state self.old) (link_state self.new) }
        ensures calls { (m : ManagerState) → self.old.manager ≡ Some m → (asked : PlainRequest)
            → IsLineOf asked line.now
            → Calls asked result out.new.items (link_state self.old) (link_state self.new) }
        ensures failed { IsErr result }
        ensures counted { Rose self.old.faults self.new.faults }
        ensures balks { self.new.balks ≡ self.old.balks }
    {
        texts_stand_for_one_expression();
        let _ = self.exchange(line, out);
        out.clear();
        self.start_again();
        self.count_fault();
        Err(LinkFailed)
    }

    /// A call that isn't told to fail.
    fn pass_on(&mut self, line: &[u8], out: &mut ArrayVec<u8, 256>) -> Result<(), LinkFailed>
        requires empty { out.old.items ≡ [] }
        requires line { IsCall line.now }
        ensures notes { NotesStay self.old self.new }
        ensures counts { NoFewer (link_state self.old) (link_state self.new) }
        ensures calls { (m : ManagerState) → self.old.manager ≡ Some m → (asked : PlainRequest)
            → IsLineOf asked line.now
            → Calls asked result out.new.items (link_state self.old) (link_state self.new) }
        ensures went { (m : ManagerState) → self.old.manager ≡ Some m → (asked : PlainRequest)
            → IsLineOf asked line.now
            → CountsCall asked result out.new.items self.old self.new }
    {
        texts_stand_for_one_expression();
        match self.exchange(line, out) {
            Passed::Answered => self.answer(line, out.as_slice()),
            Passed::Ended => {
                self.start_again();
                self.answer(line, out.as_slice())
            }
            Passed::Lost => {
                out.clear();
                self.start_again();
                self.count_fault();
                Err(LinkFailed)
            }
        }
    }

    /// Counts the reply, unless it is an expected one.
    fn answer(&mut self, line: &[u8], reply: &[u8]) -> Result<(), LinkFailed>
        ensures ok { result ≡ Ok tt }
        ensures notes { NotesStay self.old self.new }
        ensures faults { self.new.faults ≡ self.old.faults }
        ensures balks { self.old.balks ≤ self.new.balks }
        ensures manager { self.new.manager ≡ self.old.manager }
        ensures site { self.new.site ≡ self.old.site }
        ensures expected { (asked : PlainRequest) → IsLineOf asked line.now
            → IsLineWith (IsExpected asked) reply.now ⊎ Rose self.old.balks self.new.balks }
        ensures stay { (asked : PlainRequest) → IsLineOf asked line.now
            → IsLineWith (IsExpected asked) reply.now → self.new.balks ≡ self.old.balks }
    {
        if !is_expected(line, reply) {
            self.count_balk();
        }
        Ok(())
    }

    fn count_fault(&mut self)
        ensures one { self.new ≡ record self.old { faults = one_more self.old.faults } }
        ensures more { self.old.faults ≤ self.new.faults }
    {
        self.faults = self.faults.saturating_add(1);
    }

    fn count_balk(&mut self)
        ensures one { self.new ≡ record self.old { balks = one_more self.old.balks } }
        ensures more { self.old.balks ≤ self.new.balks }
    {
        self.balks = self.balks.saturating_add(1);
    }
}

impl Link for ManagerLink {
    ghost state = { link_state };

    fn call(&mut self, line: &[u8], out: &mut ArrayVec<u8, 256>) -> Result<(), LinkFailed> {
        self.make_call(line, out)
    }

    ghost sound = { told_is_sound };
}

/// What is told of the call of this number.
fn failure_at(fail: &[(u64, bool)], number: u64) -> Option<bool>
    ensures { result ≡ told_at number fail.now }
{
    for (listed, is_behind) in fail {
        if *listed == number {
            return Some(*is_behind);
        }
    }
    None
}

/// Starts the manager of the text's expression from the attached file.
fn start(
    alloc: Global,
    text: &[u8],
    limit: usize,
    site: &mut MemorySite,
) -> Result<Manager, StartFault>
    requires least { 1 ≤ limit }
    requires most { limit ≤ most_size }
    requires attached { site.old.attached ≡ true }
    ensures attached { site.new.attached ≡ true }
    ensures told { site.new.told ≡ site.old.told }
    ensures started { IfOk result (λ m. StartedFrom text.now limit m site.old site.new) }
    ensures none { site.old.told ≡ true → (x : Form) → StandsFor text.now x
        → IfErr result (FailsToStart x limit site.old.image) }
{
    texts_stand_for_one_expression();
    match ix_parse::read(alloc, text) {
        Ok(expression) => Manager::start(alloc, site, expression, limit),
        Err(_) => Err(StartFault::Memory),
    }
}

/// The same, or none where it can't be started.
fn start_or_none(alloc: Global, text: &[u8], limit: usize, site: &mut MemorySite) -> Option<Manager>
    requires least { 1 ≤ limit }
    requires most { limit ≤ most_size }
    requires attached { site.old.attached ≡ true }
    ensures attached { site.new.attached ≡ true }
    ensures told { site.new.told ≡ site.old.told }
    ensures started { IfSome result (λ m. StartedFrom text.now limit m site.old site.new) }
{
    match start(alloc, text, limit, site) {
        Ok(manager) => Some(manager),
        Err(_fault) => None,
    }
}

/// Gives the manager a line as an event, and puts the reply that it sent. The manager comes back
/// where it was answered.
fn pass(
    alloc: Global,
    mut manager: Manager,
    site: &mut MemorySite,
    line: &[u8],
    out: &mut ArrayVec<u8, 256>,
) -> (Option<Manager>, Passed)
    requires empty { out.old.items ≡ [] }
    requires line { IsCall line.now }
    requires limit { manager.limit ≤ most_size }
    requires attached { site.old.attached ≡ true }
    requires over { IsRunEnded manager site.old }
    ensures attached { site.new.attached ≡ true }
    ensures told { site.new.told ≡ true → site.old.told ≡ true }
    ensures keeps { (asked : PlainRequest) → IsLineOf asked line.now
        → KeepsAsked asked result.1 result.0 out.new.items manager site.new }
{
    texts_tell_tickets_apart();
    if manager.ended() || manager.tickets() >= MOST_TICKETS || !is_one_line(line) {
        return (None, Passed::Lost);
    }
    let sent = site.sent_len();
    let handled = manager.handle(alloc, event_of(line), line, site);
    let is_whole = take_reply(site, sent, out);
    match handled {
        Ok(_) if is_whole => (Some(manager), Passed::Answered),
        Err(_) if is_whole => (None, Passed::Ended),
        _ => (None, Passed::Lost),
    }
}

/// Whether a manager takes the line as one.
fn is_one_line(line: &[u8]) -> bool
    ensures { result ≡ true → (bytes : List ℕ) × IsShortLine bytes line.now }
{
    match line.split_last() {
        Some((10, bytes)) => bytes.len() <= MOST_BYTES && !bytes.contains(&b'\n'),
        _ => false,
    }
}

/// The event of the bytes, on connection 0 and at moment 0.
fn event_of(bytes: &[u8]) -> Event
    ensures { result
        ≡ record { conn = 0; moment = 0; kind = EventKind.Bytes (length bytes.now) } }
{
    Event {
        conn: 0,
        moment: 0,
        kind: EventKind::Bytes(bytes.len()),
    }
}

/// Puts the last pair that was sent, without its byte 10. Whether there are more pairs than so
/// many, and the last one ends so and has its room.
fn take_reply(site: &MemorySite, sent: usize, out: &mut ArrayVec<u8, 256>) -> bool
    requires { out.old.items ≡ [] }
    ensures { result ≡ true → EndsInLine sent site.now.sends out.new.items }
{
    let count = site.sent_len();
    if count <= sent {
        return false;
    }
    let (_, bytes) = site.sent_at(count - 1);
    match bytes.split_last() {
        Some((10, reply)) => out.try_extend_from_slice(reply).is_ok(),
        _ => false,
    }
}
