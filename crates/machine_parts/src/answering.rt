// A packet is answered, and its trace is learned.
ghost use Rattle.std.specs.Prelude.{◌≡◌, ◌≤◌, false, length, None, IfOk, OnOk, OnErr};
ghost use Rattle.maple_base.specs.Decisions.{actions_at};
ghost use Rattle.maple_base.specs.OpenFlow.{no_buffer};
ghost use Rattle.switch_session.specs.declared.told.Phase.TheVariants.{Live};
ghost use Rattle.switch_traces.specs.Lists.{AreFit};
ghost use Rattle.machine_steps.specs.Machine.{most_sent_back};
ghost use Rattle.machine_steps.specs.Steps.{HeadsFor};
ghost use Rattle.machine_parts.specs.Answering.{CanAnswer, AnswersOne, sent};

use crate::connection::Connection;
use machine_steps::Job;
use maple_base::{Actions, NoMemory, Settings};
use report_text::Learnt;
use switch_session::Session;
use switch_traces::{SwitchTraces, traces_laws};
use trace_tree::Trace;

/// Sends a job's packet as its trace decides, and learns the trace.
///
/// # Errors
///
/// `NoMemory`. Nothing changes then.
pub fn answer(
    traces: &mut SwitchTraces,
    connection: &mut Connection,
    settings: Settings,
    job: &Job,
    actions: Actions,
    trace: Trace,
) -> Result<Learnt, NoMemory>
    requires can { CanAnswer settings job.now trace traces.old connection.old }
    requires actions { actions ≡ actions_at trace.decision job.now.switch }
    ensures ok { IfOk result (λ learns. AnswersOne settings job.now trace traces.old connection.old learns traces.new connection.new) }
    ensures traces_kept { OnErr result (traces.new ≡ traces.old) }
    ensures session_kept { OnErr result (connection.new ≡ connection.old) }
{
    traces_laws();
    let session = &mut connection.session;
    if traces.search(&job.key).is_some() {
        send(session, job, actions)?;
        return Ok(Learnt::Known);
    }
    let number = trace.number;
    let learnt = traces.learn(trace, settings.levels, settings.capacity, session.quiet())?;
    if learnt != Learnt::Learned {
        send(session, job, actions)?;
    } else if send_and_head(session, job, actions, traces).is_err() {
        traces.retire(number);
        return Err(NoMemory);
    }
    Ok(learnt)
}

// Sends a job's packet, and then the session heads for the rules of these traces.
fn send_and_head(
    session: &mut Session,
    job: &Job,
    actions: Actions,
    traces: &SwitchTraces,
) -> Result<(), NoMemory>
    requires live { session.old.phase ≡ Live }
    requires loud { session.old.quiet ≡ false }
    requires idle { session.old.prepared ≡ None }
    requires fit { AreFit session.old.capacity traces.now.traces }
    requires frame { job.now.buffer ≡ no_buffer → length job.now.frame ≤ most_sent_back }
    ensures heads { OnOk result (HeadsFor traces.now.traces (sent job.now actions session.old) session.new) }
    ensures kept { OnErr result (session.new ≡ session.old) }
{
    traces_laws();
    let rules = traces.rules()?;
    let aim = session.prepare(&rules)?;
    if send(session, job, actions).is_err() {
        session.forget();
        return Err(NoMemory);
    }
    session.aim(aim);
    Ok(())
}

// Sends a job's packet, unless it is to go nowhere.
fn send(session: &mut Session, job: &Job, actions: Actions) -> Result<(), NoMemory>
    requires frame { job.now.buffer ≡ no_buffer → length job.now.frame ≤ most_sent_back }
    ensures sent { OnOk result (session.new ≡ sent job.now actions session.old) }
    ensures kept { OnErr result (session.new ≡ session.old) }
{
    if actions.items().is_empty() {
        return Ok(());
    }
    session.answer(job.buffer, job.key.in_port, actions, job.frame.items())
}
