//! Short runs, worked out by hand.

use crate::expect::expect;
use bank_ready::refresh::Refresh;

/// A refresh every 100 cycles: of one rank; of two, of which the lower is refreshed first; and never.
#[test]
fn refreshes(rt: HostRuntime) {
    let mut one = Refresh::new(100, 1);
    let before = (one.next_due(0), one.is_due_by(99));
    let due = (one.next_due(100), one.is_due_by(100));
    one.note_ref(103, 0);
    let then = (one.due(150, 0), one.due(200, 0), one.next_due(104));
    expect(
        &rt,
        &(before, due, then),
        &((Some(100), false), (Some(100), true), (0, 1, Some(200))),
    );
    let mut two = Refresh::new(100, 2);
    two.note_ref(103, 0);
    let other = (two.due(104, 0), two.due(104, 1), two.next_due(104));
    two.note_ref(107, 1);
    let none = (two.is_due_by(108), two.next_due(108));
    let never = Refresh::new(0, 4);
    let late = (never.is_due_by(1_000_000_000_000), never.next_due(5));
    expect(
        &rt,
        &(other, none, late),
        &((0, 1, Some(104)), (false, Some(200)), (false, None)),
    );
}
