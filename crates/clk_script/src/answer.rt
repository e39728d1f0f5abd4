//! The answer to a script.

ghost use Rattle.std.specs.Prelude.{◌≡◌, ◌≤◌, ◌∷◌, [], true, IfOk, IfSome, OnOk, IsOkUnless, length};
ghost use Rattle.std.specs.List.{AllByRecursion};
ghost use Rattle.clk_packet.specs.declared.fault.Fault.TheVariants.{Memory};
ghost use Rattle.clk_report.specs.Devices.{lists_of};
ghost use Rattle.clk_script.specs.declared.limits.TheConstants.{MAX_LINES, MAX_MOMENT};
ghost use Rattle.clk_router.specs.Events.{Setup};
ghost use Rattle.clk_script.specs.inside.ScriptRouter.{names_in, IsReady, Starts};
ghost use Rattle.clk_script.specs.inside.Rows.{asked_by, Answers, IsToDo, CanBeRun, AnswersRows, IsClosedFrom, IsClosedAt, closings_of};

use crate::reading::Script;
use crate::report::accounts_tell;
use crate::rows::{Fate, ScriptRow};
use crate::script_router::ScriptRouter;
use clk_packet::Fault;
use clk_sched::Departure;
use std::alloc::Global;

/// The answer to a script.
#[derive(Drop)]
pub struct Answer {
    /// Its commands, in order, each with its result.
    pub rows: Vec<ScriptRow>,
    /// The moment of the script's drain in ticks, if it has one.
    pub drain: Option<u64>,
    /// If the script has a drain: the packets that each device emitted in it. Then the report follows.
    pub closing: Option<Vec<Vec<Departure>>>,
    /// The router over which all was carried out.
    pub script_router: ScriptRouter,
}

/// Answers a script, over a router to which nothing has happened.
///
/// # Errors
///
/// Fault 1 if an allocation fails.
pub fn answer_script(
    alloc: Global,
    script_router: ScriptRouter,
    script: Script,
) -> Result<Answer, Fault>
    requires fresh { (setup : Setup) × Starts setup script_router }
    requires sound { CanBeRun (names_in script_router) script }
    ensures answers { IfOk result (λ answer. (setup : Setup) → Starts setup script_router → Answers setup (asked_by script.rows.items) script.closing answer) }
    ensures drain { IfOk result (λ answer. answer.drain ≡ script.closing) }
    ensures packets { IfOk result (λ answer. answer.script_router.router.keeps.packets ≡ true) }
    ensures rows { IfOk result (λ answer. length answer.rows.items ≤ MAX_LINES) }
    ensures closings { IfOk result (λ answer. IfSome answer.closing (λ closings. length closings.items ≡ length script_router.router.setup.trees)) }
    ensures fault { IsOkUnless result Fault.Memory }
{
    let mut script_router = script_router;
    let mut rows = script.rows;
    carry_out(&mut script_router, &mut rows)?;
    let closing = close(alloc, &mut script_router, script.closing)?;
    // The lines of the accounts are the report, by this law.
    accounts_tell(&script_router.router);
    Ok(Answer {
        rows,
        drain: script.closing,
        closing,
        script_router,
    })
}

/// Carries out the commands of these rows, and puts the result of each command into its row. Fault 1 if an allocation fails.
fn carry_out(script_router: &mut ScriptRouter, rows: &mut [ScriptRow]) -> Result<(), Fault>
    requires fresh { (setup : Setup) × Starts setup script_router.old }
    requires to_do { AllByRecursion (IsToDo (names_in script_router.old)) rows.old }
    requires few { length rows.old ≤ MAX_LINES }
    ensures done { OnOk result (AnswersRows script_router.old script_router.new rows.old rows.new) }
    ensures fault { IsOkUnless result Fault.Memory }
{
    let mut i = 0;
    while i < rows.len() {
        rows[i] = carry_out_one(script_router, rows[i])?;
        i += 1;
    }
    Ok(())
}

/// Carries out the command of a row, and returns the row with the command's result. Fault 1 if an allocation fails.
fn carry_out_one(script_router: &mut ScriptRouter, row: ScriptRow) -> Result<ScriptRow, Fault>
    requires ready { IsReady script_router.old }
    requires to_do { IsToDo (names_in script_router.old) row }
    ensures done { IfOk result (λ done. AnswersRows script_router.old script_router.new (row ∷ []) (done ∷ [])) }
    ensures fault { IsOkUnless result Fault.Memory }
{
    match row {
        ScriptRow::Send { place, packet, .. } => {
            let (packet, offered) = script_router.send(usize::from(place), packet.length)?;
            Ok(ScriptRow::Send {
                fate: Fate::of(offered),
                place,
                packet,
            })
        }
        ScriptRow::Pull { device, moment, .. } => {
            let got = script_router.pull(device, moment.ticks())?;
            Ok(ScriptRow::Pull {
                gave: got.is_some(),
                device,
                moment,
            })
        }
    }
}

/// Drains a router from this moment on, in ticks, if one is given. Returns the packets that each device emitted in the drain. Fault 1 if an
/// allocation fails.
fn close(
    alloc: Global,
    script_router: &mut ScriptRouter,
    moment: Option<u64>,
) -> Result<Option<Vec<Vec<Departure>>>, Fault>
    requires ready { IsReady script_router.old }
    requires moment { IfSome moment (λ m. m ≤ MAX_MOMENT) }
    ensures closed { IfOk result (λ closings. IsClosedFrom script_router.old script_router.new moment (closings_of closings)) }
    ensures fault { IsOkUnless result Fault.Memory }
{
    match moment {
        Some(moment) => Ok(Some(drain_all(alloc, script_router, moment)?)),
        None => Ok(None),
    }
}

/// Drains the devices one after the other, each from this moment on, in ticks. Returns the packets that each device emitted. Fault 1 if an
/// allocation fails.
fn drain_all(
    alloc: Global,
    script_router: &mut ScriptRouter,
    moment: u64,
) -> Result<Vec<Vec<Departure>>, Fault>
    requires ready { IsReady script_router.old }
    requires moment { moment ≤ MAX_MOMENT }
    ensures closed { IfOk result (λ closings. IsClosedAt script_router.old script_router.new moment (lists_of closings.items)) }
    ensures fault { IsOkUnless result Fault.Memory }
{
    let mut closings = Vec::new(alloc);
    let mut device = 0;
    while usize::from(device) < script_router.router.devices() {
        closings.push(script_router.drain(alloc, device, moment)?)?;
        device += 1;
    }
    Ok(closings)
}
