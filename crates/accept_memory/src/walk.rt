// A walk over a span of addresses, as plain numbers and a state.
use host::page_level::PageLevel;
use std::marker::Model;

pub mod step;

#[derive(Clone, Copy, Debug, PartialEq, Eq)]
pub enum WalkState {
    // It asks for the block of this level at its next address.
    Asking(PageLevel),
    // It has come to the end.
    Finished,
    // No block fits between its next address and the end.
    Misaligned,
    // The reply to its request of this level ended it.
    Refused(PageLevel),
}

#[derive(Clone, Copy, Debug, PartialEq, Eq)]
pub struct Walk {
    next: u64,
    end: u64,
    // the replies taken
    count: u64,
    // the last reply taken, 0 before any
    status: u64,
    state: WalkState,
}

// Clauses see a walk's numbers, and its state by the number of its level.
impl Model for Walk {
    ghost use Rattle.accept_memory.specs.Walks.{View};
    ghost use Rattle.accept_memory.specs.Courses.{OnCourse};
    ghost use Rattle.accept_memory.specs.States.{state_of, walk_state, state_back};

    ghost Value = { View };

    ghost view = { λ w. record { next = w.next; end = w.end; count = w.count; status = w.status; state = state_of w.state } };

    ghost invariant = { λ w. OnCourse w.next w.end w.count w.status (state_of w.state) };

    ghost inverse = { λ v. record { next = v.next; end = v.end; count = v.count; status = v.status; state = walk_state v.state } };

    ghost inverse_ok = { λ w h. rw (state_back w.state) };
}
