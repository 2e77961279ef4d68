// Events on a trace.
ghost use Rattle.std.specs.Prelude.{◌≡◌, []};
ghost use Rattle.meaning.specs.Event.{discontinuity};
ghost use Rattle.verdict.specs.Plans.{settings_of};
ghost use Rattle.event.specs.Events.{state};
ghost use Rattle.gwirandol.specs.Events.{settings_in, activity_in, Applies};

use codes::{level_of, options_of, told};
use verdict::Settings;

// The settings of an event by its options.
fn settings_of(options: u32) -> Settings
    ensures { settings_of result ≡ settings_in options }
{
    let said = options_of(options);
    Settings {
        recording: said.recording,
        messaging: said.messaging,
        layout: said.layout,
    }
}

// A DISCONTINUITY: the message's length, or Read's refusals, then 10 and 11.
#[unsafe(no_mangle)]
pub extern "C" fn gw_discontinuity(
    buffer: &mut [u8],
    length: usize,
    sheet: &[u32; 8],
    options: u32,
    done: &mut [u64; 4],
) -> u64
    ensures { Applies sheet.now (state buffer.old length []) (discontinuity (settings_in options)) done.old result done.new buffer.new [] }
{
    let found = event::discontinuity(buffer, length, *sheet, settings_of(options));
    told(found, done)
}

// AN ACTIVITY: the message's length now, or Read's refusals, then 9 to 13. A refusal leaves all three buffers as they were.
#[tactic(auto, using(crate::proofs::Applied::event_brief))]
#[unsafe(no_mangle)]
pub extern "C" fn gw_activity(
    buffer: &mut [u8],
    length: usize,
    sheet: &[u32; 8],
    options: u32,
    level: u32,
    group: &[u8],
    report: &mut [u8],
    done: &mut [u64; 4],
) -> u64
    ensures { Applies sheet.now (state buffer.old length report.old) (activity_in options level group.now) done.old result done.new buffer.new report.new }
{
    let found = event::activity(
        buffer,
        length,
        *sheet,
        level_of(level),
        group,
        options_of(options).asked,
        settings_of(options),
        report,
    );
    told(found, done)
}
