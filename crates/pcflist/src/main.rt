// The listing program, for plain messages. Its stored run: a composed message under the sheet 1201 to 1208.
#![tactic(auto)]

use layout::{Form, Layout};

fn main() {
    let mut input = [0u8; 65537];
    let mut out = [0u8; 131072];
    lister::run(Layout { form: Form::Plain }, &mut input, &mut out);
}
