// The hops program: the Activity groups of a trace with the names of the applications, in a plain message. Its stored run has
// four groups.
#![tactic(auto)]

use layout::{Form, Layout};

fn main() {
    let mut input = [0u8; 65537];
    let mut out = [0u8; 131072];
    lister::run_hops(Layout { form: Form::Plain }, &mut input, &mut out);
}
