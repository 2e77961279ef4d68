// The options of a call, taken apart: one number, whose bits have names. The bits are the C interface.
ghost use Rattle.std.specs.Prelude.{◌≡◌};
ghost use Rattle.codes.specs.Options.{layout_said, options_in};

use attributes::any_bit;
use layout::{Form, Layout};

// Reports are asked for; what the queue manager does: activity recording, trace-route messaging; whether the remote one
// supports trace-route messaging; and how the message is laid out. A call looks at those that it has a use for.
#[derive(Clone, Copy, Debug, PartialEq, Eq)]
pub struct Options {
    pub asked: bool,
    pub recording: bool,
    pub messaging: bool,
    pub supporting: bool,
    pub layout: Layout,
}

const REPORTS_ASKED: u32 = 1;

const ACTIVITY_RECORDING: u32 = 2;

const TRACE_ROUTE_MESSAGING: u32 = 4;

const REMOTE_SUPPORTS: u32 = 8;

const EMBEDDED: u32 = 16;

// How the bits say that a message is laid out.
#[tactic(auto, unfolding(crate::specs::Options::layout_said))]
pub fn layout_of(options: u32) -> Layout
    ensures { result ≡ layout_said options }
{
    let form = if any_bit(options, EMBEDDED) {
        Form::Embedded
    } else {
        Form::Plain
    };
    Layout { form }
}

// What the bits say; bits without a name are ignored.
#[tactic(auto, unfolding(crate::specs::Options::options_in))]
pub fn options_of(options: u32) -> Options
    ensures { result ≡ options_in options }
{
    Options {
        asked: any_bit(options, REPORTS_ASKED),
        recording: any_bit(options, ACTIVITY_RECORDING),
        messaging: any_bit(options, TRACE_ROUTE_MESSAGING),
        supporting: any_bit(options, REMOTE_SUPPORTS),
        layout: layout_of(options),
    }
}
