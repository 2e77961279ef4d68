// A refusal in words, for people.
#![tactic(auto)]

ghost use Rattle.std.specs.Prelude.{◌<◌, length};
ghost use Rattle.words.specs.Words.{words_of, words_room, Says};

// Puts words at the start of the text, and a zero byte behind them.
fn say(text: &mut [u8; 128], words: &[u8]) -> usize
    requires { length words.now < words_room }
    ensures { Says words.now text.old result text.new }
{
    let n = words.len();
    wire::copy(text, words);
    text[n] = 0;
    n
}

// The words of a refusal's number, at the start of the text; answers how many bytes they have. Each arm puts its own: how many they
// are is known there, so that they are stored and no loop copies them. Taken from a table of words first, they took 1.5 to 2.1 times as
// long by the library's `copy_from_slice`, which calls memmove, and 2.1 to 2.7 times by `wire::copy`.
#[tactic(auto, unfolding(crate::specs::Words::words_of, crate::specs::Words::said_in))]
pub fn put_words(number: u32, text: &mut [u8; 128]) -> usize
    ensures { Says (words_of number) text.old result text.new }
{
    match number {
        0 => say(text, b"accepted"),
        1 => say(
            text,
            b"fewer than 36 bytes (embedded: 68), or more than 65,536 or than the buffer has",
        ),
        2 => say(text, b"the header is not sound"),
        3 => say(
            text,
            b"a structure is not sound: its type, length or count, or it goes past the end",
        ),
        4 => say(text, b"a group is deeper than 8"),
        5 => say(text, b"bytes are left over behind the last structure"),
        6 => say(text, b"the header is not that of a trace-route message"),
        7 => say(text, b"there is no TraceRoute group, or more than one"),
        8 => say(
            text,
            b"an attribute is missing, there twice, no integer or out of range",
        ),
        9 => say(text, b"the Activity group is not sound"),
        10 => say(
            text,
            b"the limit of activities is reached (MQFB_MAX_ACTIVITIES)",
        ),
        11 => say(text, b"the counter can't be raised any more"),
        12 => say(
            text,
            b"there is no room: the message would be longer than the buffer or than 65,536 bytes",
        ),
        13 => say(text, b"there is no room for the report"),
        14 => say(
            text,
            b"a delivery option is not supported (MQFB_UNSUPPORTED_DELIVERY)",
        ),
        15 => say(
            text,
            b"a forwarding option is not supported (MQFB_UNSUPPORTED_FORWARDING)",
        ),
        16 => say(
            text,
            b"it may not go to this queue manager (MQFB_NOT_FORWARDED)",
        ),
        17 => say(text, b"the sheet of identifiers is not sound"),
        18 => say(
            text,
            b"the embedded header is not sound: its identifier, version or length",
        ),
        _ => say(text, b"no refusal has this number"),
    }
}
