// A session ended: its jobs, and its line.
ghost use Rattle.std.specs.Prelude.{◌≡◌, ◌<◌, ◌+◌, ◌==◌, ◌++◌, ◌∷◌, [], not, filter, vec_len, vec_capacity};
ghost use Rattle.report_text.specs.declared.line.Line.TheVariants.{Closed};
ghost use Rattle.machine_steps.specs.declared.job.Job.{Job as JobData};
ghost use Rattle.machine_steps.specs.Steps.{why_of};

use machine_steps::Job;
use report_text::{Line, Why};
use std::collections::VecDeque;
use switch_session::End;

/// Closes the jobs of a connection whose session ended, and tells its line, for which there is room.
pub fn close(jobs: &mut VecDeque<Job>, lines: &mut Vec<Line>, connection: u32, end: End)
    requires room { vec_len lines.old < vec_capacity lines.old }
    ensures jobs { jobs.new.items ≡ filter (λ (j : JobData). not (j.connection == connection)) jobs.old.items }
    ensures lines { lines.new.items ≡ lines.old.items ++ Closed connection (why_of end) ∷ [] }
    ensures len { vec_len lines.new ≡ vec_len lines.old + 1 }
    ensures capacity { vec_capacity lines.new ≡ vec_capacity lines.old }
{
    jobs.retain(|job| job.connection != connection);
    let device = connection;
    let why = why_of(end);
    lines.push_reserved(Line::Closed { device, why });
}

/// How the report tells why a session ended.
pub fn why_of(end: End) -> Why
    ensures { result ≡ why_of end }
{
    match end {
        End::Bad { place, bad } => Why::Bad {
            place,
            cause: bad.number(),
        },
        End::Version => Why::Version,
        End::Twice(dpid) => Why::Twice(dpid),
        End::Full => Why::Full,
        End::ClearRefused => Why::Clear,
        End::Early(xid) => Why::Early(xid),
        End::Xids => Why::Xids,
        End::LinkEnd => Why::Link,
        End::LinkFault => Why::Fault,
    }
}
