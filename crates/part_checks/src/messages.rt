// The messages of the checks, a line for each structure, in words of four bytes.
use wire::put_number;

// The sheet of the messages.
pub const SHEET: [u32; 8] = [1201, 1202, 1203, 1204, 1205, 1206, 1207, 1208];

// A sheet with an identifier twice.
pub const BAD_SHEET: [u32; 8] = [1201, 1202, 1203, 1204, 1205, 1206, 1207, 1201];

// A word where the buffer has room for it; the answer is the place behind it.
fn put_word(buffer: &mut [u8; 512], at: usize, word: u32) -> usize {
    if 508 < at {
        return at;
    }
    put_number(buffer, at, word);
    at + 4
}

// Words one behind the other; the answer is the place behind them.
fn put(buffer: &mut [u8; 512], at: usize, words: &[u32]) -> usize {
    let mut next = at;
    for &word in words {
        next = put_word(buffer, next, word);
    }
    next
}

// A TraceRoute group with so many members, the eight attributes first.
fn put_route(buffer: &mut [u8; 512], at: usize, members: u32) -> usize {
    let a = put(buffer, at, &[20, 16, 8003, members]);
    let b = put(buffer, a, &[3, 16, 1201, 2]);
    let c = put(buffer, b, &[3, 16, 1202, 7]);
    let d = put(buffer, c, &[3, 16, 1203, 0]);
    let e = put(buffer, d, &[3, 16, 1204, 0]);
    let f = put(buffer, e, &[3, 16, 1205, 0]);
    let g = put(buffer, f, &[3, 16, 1206, 0x10004]);
    let h = put(buffer, g, &[3, 16, 1207, 0x100]);
    put(buffer, h, &[3, 16, 1208, 0x1000])
}

// The trace with decoys of the corners, 312 bytes from `at` on: an Activity group in front, with the identifier of
// RecordedActivities, an integer 77 and two strings 77, `A B  ` and `C`; and a nested group with an integer 1202 behind the eight
// attributes.
pub fn put_decoys(buffer: &mut [u8; 512], at: usize) {
    let a = put(buffer, at, &[10, 36, 3, 75, 1, 1, 0, 0, 2]);
    let b = put(buffer, a, &[20, 16, 8005, 4]);
    let c = put(buffer, b, &[3, 16, 1202, 900]);
    let d = put(buffer, c, &[3, 16, 77, 5]);
    let e = put(buffer, d, &[4, 28, 77, 0, 5, 0x41204220, 0x20585858]);
    let f = put(buffer, e, &[4, 24, 77, 0, 1, 0x43000000]);
    let g = put_route(buffer, f, 9);
    let h = put(buffer, g, &[20, 16, 99, 1]);
    put(buffer, h, &[3, 16, 1202, 800]);
}

// An embedded header in front of a part that ends at `end`, and user data behind it that look like two integers, 32 bytes.
pub fn put_around(buffer: &mut [u8; 512], end: u32) {
    put(
        buffer,
        0,
        &[0x45504820, 1, end, 273, 819, 0x4D515354, 0x52202020, 0],
    );
    put(buffer, end as usize, &[3, 16, 77, 5, 3, 16, 77, 6]);
}

// A trace without Activity groups, 180 bytes.
pub fn put_none(buffer: &mut [u8; 512]) {
    let a = put(buffer, 0, &[10, 36, 3, 75, 1, 1, 0, 0, 1]);
    put_route(buffer, a, 8);
}

// A trace with seven Activity groups, 468 bytes: a name of eight blanks; an empty name, and a second one; a name with blanks
// before, in and behind it; a name of four zero bytes; one of both; one with both in it and behind it; nothing.
pub fn put_names(buffer: &mut [u8; 512]) {
    let a = put(buffer, 0, &[10, 36, 3, 75, 1, 1, 0, 0, 8]);
    let b = put_route(buffer, a, 8);
    let c = put(buffer, b, &[20, 16, 8005, 1]);
    let d = put(buffer, c, &[4, 28, 77, 0, 8, 0x20202020, 0x20202020]);
    let e = put(buffer, d, &[20, 16, 8005, 2]);
    let f = put(buffer, e, &[4, 20, 77, 0, 0]);
    let g = put(buffer, f, &[4, 24, 77, 0, 4, 0x6c617465]);
    let h = put(buffer, g, &[20, 16, 8005, 1]);
    let i = put(buffer, h, &[4, 28, 77, 0, 8, 0x20412020, 0x42202020]);
    let j = put(buffer, i, &[20, 16, 8005, 1]);
    let k = put(buffer, j, &[4, 24, 77, 0, 4, 0]);
    let l = put(buffer, k, &[20, 16, 8005, 1]);
    let m = put(buffer, l, &[4, 24, 77, 0, 4, 0x00202000]);
    let n = put(buffer, m, &[20, 16, 8005, 1]);
    let o = put(buffer, n, &[4, 28, 77, 0, 8, 0x41002042, 0x20002000]);
    put(buffer, o, &[20, 16, 8005, 0]);
}

// Two TraceRoute groups, 324 bytes: refused with 7.
pub fn put_twice(buffer: &mut [u8; 512]) {
    let a = put(buffer, 0, &[10, 36, 3, 75, 1, 1, 0, 0, 2]);
    let b = put_route(buffer, a, 8);
    put_route(buffer, b, 8);
}
