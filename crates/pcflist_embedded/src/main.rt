// The listing program, for embedded messages: the structures of the part behind the embedded header, with their places in the
// whole message. Its stored run: the composed message of pcflist's run, embedded, and five bytes of user data behind it.
#![tactic(auto)]

use layout::{Form, Layout};

fn main() {
    let mut input = [0u8; 65537];
    let mut out = [0u8; 131072];
    lister::run(
        Layout {
            form: Form::Embedded,
        },
        &mut input,
        &mut out,
    );
}
