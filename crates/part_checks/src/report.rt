// The lines that the checks write.
const STDOUT: i32 = 1;

pub fn say(text: &[u8]) {
    io::write_all(STDOUT, text);
}

// Bytes, each zero byte as a dot.
pub fn say_bytes(bytes: &[u8]) {
    for &byte in bytes {
        say(&[if byte == 0 { b'.' } else { byte }]);
    }
}

// A word, and a number behind it.
pub fn say_number(text: &[u8], n: usize) {
    say(text);
    io::print_decimal(STDOUT, n as u64);
}

// How a check went, at the end of a line.
pub fn say_held(held: bool) {
    if held {
        say(b": same\n");
    } else {
        say(b": DIFFERENT\n");
    }
}
