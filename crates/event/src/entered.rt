// An activity on a trace that was read: decided, and then written.
ghost use Rattle.std.specs.Prelude.{◌≡◌, length};
ghost use Rattle.meaning.specs.Event.{applied, decide as decide_on, leaving};
ghost use Rattle.layout.specs.Layouts.{layout_of};
ghost use Rattle.verdict.specs.Plans.{planned};
ghost use Rattle.event.specs.Events.{outcome, state};
ghost use Rattle.event.specs.Written.{Ready};

use crate::written::{write_message, write_report};
use layout::Layout;
use refusals::Refusal;
use trace::Traced;
use verdict::{Done, Plan, decide};

// Behind Type, StrucLength and Parameter of an integer stands its Value.
pub const VALUE: usize = 12;

// All refusals come before the first byte is written.
pub fn enter(
    buf: &mut [u8],
    len: usize,
    layout: Layout,
    traced: Traced,
    plan: Plan,
    group: &[u8],
    report: &mut [u8],
) -> Result<Done, Refusal>
    requires { Ready buf.old len layout traced (planned plan) group.now report.old }
    ensures { outcome result len buf.new report.new ≡ leaving (state buf.old len report.old) (applied (layout_of layout) (state buf.old len report.old) group.now traced.places (planned plan)) (decide_on traced.values (planned plan) (length group.now) len (length buf.old) (length report.old)) }
{
    let done = decide(
        traced.values,
        plan,
        group.len(),
        len,
        buf.len(),
        report.len(),
    )?;
    let i = plan.counter.index();
    write_message(
        buf,
        len,
        layout,
        traced.part,
        traced.places[i] + VALUE,
        traced.values[i],
        plan.appends,
        group,
    );
    if plan.reports {
        write_report(report, group);
    }
    Ok(done)
}
