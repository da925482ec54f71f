// The steps of a walk: where it begins, what it asks, and what a reply does.
ghost use Rattle.std.specs.Prelude.{◌≡◌, ℕ, ◌+◌, ◌-◌, ◌*◌, ◌/◌, ◌%◌, ◌<◌, ◌≤◌};
ghost use Rattle.host.specs.Levels.{level_number};
ghost use Rattle.accept_memory.specs.Courses.{OnCourse};
ghost use Rattle.accept_memory.specs.Walks.{answer_of, arrive, asking, begun, fits, last_answer, lower, next_request, onward, placed, replied, reply_class, stop, turned};
ghost use Rattle.accept_memory.specs.Promises.{stepped_end};
ghost use Rattle.accept_memory.specs.States.{state_of};
ghost use Rattle.accept_memory.specs.Views.{as_request, told_if};
ghost use Rattle.fault.specs.Refusals.{told_by};
ghost use Rattle.host.specs.Pages.{size};

use super::{Walk, WalkState};
use fault::{AcceptError, Fault, Layer};
use host::Block;
use host::page_level::PageLevel;
use tdcall::{TdCallError, decode};

// A request for the block of a level at an address.
#[derive(Clone, Copy, Debug, PartialEq, Eq)]
pub struct PageRequest {
    pub level: PageLevel,
    pub address: u64,
}

// As a host is asked for it.
impl From<PageRequest> for Block {
    ghost from_gives = { λ q b. b ≡ record { level = level_number q.level; address = q.address } };

    fn from(request: PageRequest) -> Block {
        Block {
            level: request.level.number(),
            address: request.address,
        }
    }
}

// What a reply means to a walk.
#[derive(Clone, Copy, Debug, PartialEq, Eq)]
pub enum ReplyClass {
    Success,
    AlreadyAccepted,
    // The host wants a smaller block: the page is mapped at another size, or an operand is invalid.
    TooLarge,
    Failure,
}

fn class_of(status: u64) -> ReplyClass
    ensures { result ≡ reply_class status }
{
    match decode(status) {
        Ok(()) => ReplyClass::Success,
        Err(TdCallError::TdxPageAlreadyAccepted) => ReplyClass::AlreadyAccepted,
        Err(TdCallError::TdxPageSizeMismatch | TdCallError::TdxOperandInvalid) =>
            ReplyClass::TooLarge,
        Err(_) => ReplyClass::Failure,
    }
}

// Is the block of a level at an address aligned, and does it end by the walk's end?
fn fits_at(next: u64, end: u64, level: PageLevel) -> bool
    requires { next ≤ end }
    ensures { result ≡ fits next end (level_number level) }
{
    let size = level.bytes();
    next % size == 0 && size <= end - next
}

// The state of a walk at an address: the largest block that fits is asked for.
fn state_at(next: u64, end: u64) -> WalkState
    ensures state { state_of result ≡ arrive next end }
{
    if next >= end {
        return WalkState::Finished;
    }
    for level in PageLevel::PRIORITIES {
        if fits_at(next, end, level) {
            return WalkState::Asking(level);
        }
    }
    WalkState::Misaligned
}

// The level below, and the lowest itself.
fn smaller(level: PageLevel) -> PageLevel
    ensures { level_number result ≡ level_number level - 1 }
{
    match level {
        PageLevel::L3_1G => PageLevel::L2_2M,
        PageLevel::L2_2M => PageLevel::L1_4K,
        PageLevel::L1_4K => PageLevel::L1_4K,
    }
}

impl Walk {
    // A walk of [start, end) before its first request.
    pub fn begin(start: u64, end: u64) -> Walk
        ensures { result ≡ begun start end }
    {
        let state = state_at(start, end);
        Walk {
            next: start,
            end,
            count: 0,
            status: 0,
            state,
        }
    }

    // What the walk asks for now; nothing where it has stopped.
    pub fn request(&self) -> Option<PageRequest>
        ensures asks { as_request result ≡ next_request self.now }
        ensures course { OnCourse self.now.next self.now.end self.now.count self.now.status self.now.state }
    {
        let address = self.next;
        match self.state {
            WalkState::Asking(level) => Some(PageRequest { level, address }),
            WalkState::Finished | WalkState::Misaligned | WalkState::Refused(_) => None,
        }
    }

    // Takes the reply to what the walk asks for. A walk that has stopped ignores it.
    pub fn reply(&mut self, status: u64)
        ensures { self.new ≡ replied self.old status }
    {
        match (self.state, class_of(status)) {
            (WalkState::Asking(level), ReplyClass::Success) => self.pass(level, status),
            (WalkState::Asking(level), ReplyClass::AlreadyAccepted) if level == PageLevel::L1_4K =>
                self.pass(level, status),
            (WalkState::Asking(level), ReplyClass::AlreadyAccepted) => self.descend(level, status),
            (WalkState::Asking(level), ReplyClass::TooLarge) if level > PageLevel::L1_4K =>
                self.descend(level, status),
            (WalkState::Asking(level), ReplyClass::TooLarge) => self.refuse(level, status),
            (WalkState::Asking(level), ReplyClass::Failure) => self.refuse(level, status),
            (WalkState::Finished | WalkState::Misaligned | WalkState::Refused(_), _) => {}
        }
    }

    // Takes the replies of a list, in order.
    pub fn replay(&mut self, statuses: &[u64])
        ensures { self.new ≡ stepped_end self.old statuses.now }
    {
        for status in statuses {
            self.reply(*status);
        }
    }

    // The block is accepted: the walk goes on behind it.
    fn pass(&mut self, level: PageLevel, status: u64)
        requires { self.old.state ≡ asking (level_number level) }
        ensures { self.new ≡ turned onward (level_number level) status self.old }
    {
        let to = self.next + level.bytes();
        self.state = state_at(to, self.end);
        self.next = to;
        self.count += 1;
        self.status = status;
    }

    // The walk asks for a smaller block at the same address.
    fn descend(&mut self, level: PageLevel, status: u64)
        requires { (self.old.state ≡ asking (level_number level)) × (0 < level_number level) }
        ensures { self.new ≡ turned lower (level_number level) status self.old }
    {
        self.state = WalkState::Asking(smaller(level));
        self.count += 1;
        self.status = status;
    }

    // The reply ends the walk.
    fn refuse(&mut self, level: PageLevel, status: u64)
        requires { (self.old.state ≡ asking (level_number level)) × (0 < status) }
        ensures { self.new ≡ turned stop (level_number level) status self.old }
    {
        self.state = WalkState::Refused(level);
        self.count += 1;
        self.status = status;
    }

    // How many replies the walk took, or the fault that ended it; nothing while it still asks.
    pub fn answer(&self) -> Option<Result<u64, Fault>>
        ensures answer { told_if result ≡ last_answer self.now }
        ensures course { OnCourse self.now.next self.now.end self.now.count self.now.status self.now.state }
    {
        match self.state {
            WalkState::Asking(_) => None,
            WalkState::Finished | WalkState::Misaligned | WalkState::Refused(_) => Some(
                self.outcome(),
            ),
        }
    }

    // How many replies the walk took so far, or the fault that ended it.
    pub(crate) fn outcome(&self) -> Result<u64, Fault>
        ensures { told_by result ≡ answer_of self.now }
    {
        match self.state {
            WalkState::Asking(_) | WalkState::Finished => Ok(self.count),
            WalkState::Misaligned => Err(self.fault(
                AcceptError::InvalidAlignment,
                Layer::Walk,
                0,
                0,
            )),
            WalkState::Refused(level) => {
                self.place(decode(self.status), level)?;
                Ok(self.count)
            }
        }
    }

    // Adds the place of a request to the error of its reply.
    fn place(&self, reply: Result<(), TdCallError>, level: PageLevel) -> Result<(), Fault>
        ensures { told_by result ≡ placed self.now (level_number level) reply }
    {
        reply.map_err(|error| self.fault(error.into(), Layer::Host, self.status, level.number()))
    }

    // A fault at the walk's next address, with the replies that it took.
    fn fault(&self, error: AcceptError, layer: Layer, status: u64, level: u8) -> Fault
        ensures { result ≡ record { error = error; layer = layer; status = status; level = level; address = self.now.next; count = self.now.count; part = 0; unit = 0 } }
    {
        Fault {
            error,
            layer,
            status,
            level,
            address: self.next,
            count: self.count,
            part: 0,
            unit: 0,
        }
    }
}
