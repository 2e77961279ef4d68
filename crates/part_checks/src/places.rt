// What a reader of a message finds, against one step at the same place.
use crate::report::{say_held, say_number};
use layout::{Layout, first_place};
use pcf::{Cursor, step};
use reader::{look, nth_top};

// Whether the reader finds at a place, at the top level and too deep for a group, what one step finds.
fn holds_at(msg: &[u8], layout: Layout, place: usize) -> bool {
    let top = Cursor { place, depth: 1 };
    let deep = Cursor { place, depth: 9 };
    look(msg, layout, top) == step(msg, msg.len(), layout, top)
        && look(msg, layout, deep) == step(msg, msg.len(), layout, deep)
}

// All structures of a message in reading order, and the end: each is behind the one before, be it a member of it or not. Where
// there is none, the place stays.
pub fn show_all(msg: &[u8], layout: Layout) {
    let mut place = first_place(layout);
    let mut held = true;
    for _ in 0..32 {
        held = held && holds_at(msg, layout, place);
        place = look(msg, layout, Cursor { place, depth: 1 }).map_or(place, |found| found.next);
    }
    say_number(b"reader up to ", place);
    say_held(held);
}

// The n-th structure of the top level, or where the refusal is, against one step at its place.
pub fn show_top(msg: &[u8], layout: Layout, n: u32) {
    let found = nth_top(msg, layout, n);
    let place = found.map_or_else(|refusal| refusal.place(), |s| s.row.place);
    say_number(b"top ", n as usize);
    say_number(b" at ", place);
    say_held(found == step(msg, msg.len(), layout, Cursor { place, depth: 1 }));
}

// What the reader finds at a place of the top level: 0 for a structure, else the refusal's number.
pub fn show_place(msg: &[u8], layout: Layout, place: usize) {
    let at = Cursor { place, depth: 1 };
    let found = look(msg, layout, at);
    let number = found.map_or_else(|refusal| refusal.number(), |_| 0);
    say_number(b"look at ", place);
    say_number(b" gives ", number as usize);
    say_held(found == step(msg, msg.len(), layout, at));
}
