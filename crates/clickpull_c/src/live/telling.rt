//! Calls that tell the state of a live router and change nothing.

ghost use Rattle.std.specs.Prelude.{◌≡◌};
ghost use Rattle.clickpull_c.specs.Answers.{HasNoDevice, HasNoPlace, HasNoQueue};
ghost use Rattle.clickpull_c.specs.Counts.{device_count, queue_count, sender_count};
ghost use Rattle.clickpull_c.specs.Tells.{TellsAccount, TellsDue, TellsLeft, TellsMoment, TellsQueue};
ghost use Rattle.clickpull_c.specs.live.State.{IsUnchanged};
ghost use Rattle.clickpull_c.specs.live.Tells.{AnswersTold, IsCount, TellsDrained, TellsEnded};

// These calls take a router mutably too, since no export takes a struct that lends what it owns.
use super::handle::LiveHandle;
use super::router::LiveRouter;
use crate::statuses::{NONE, OK, RECLAIMED, UNKNOWN_DEVICE, UNKNOWN_QUEUE, UNKNOWN_SENDER};
use crate::values::{CAccount, CQueue, account_for_c, queue_for_c};

/// Whether every inlet has ended, so that nothing more can come through it.
#[unsafe(no_mangle)]
pub extern "C" fn clk_raw_live_ended(live: &mut LiveHandle) -> u32
    ensures answer { AnswersTold live.old.router live.new.router result (λ s. TellsEnded s result) (λ s. ⊥) (result ≡ result) }
    ensures stays { live.new.at ≡ live.old.at }
{
    ended(live.get_mut())
}

/// Whether no packet is left inside.
#[unsafe(no_mangle)]
pub extern "C" fn clk_raw_live_drained(live: &mut LiveHandle) -> u32
    ensures answer { AnswersTold live.old.router live.new.router result (λ s. TellsDrained s result) (λ s. ⊥) (result ≡ result) }
    ensures stays { live.new.at ≡ live.old.at }
{
    drained(live.get_mut())
}

/// How many senders the router has. 0 once it was reclaimed.
#[unsafe(no_mangle)]
pub extern "C" fn clk_raw_live_senders(live: &mut LiveHandle) -> usize
    ensures senders { IsCount live.old.router sender_count result }
    ensures unchanged { IsUnchanged live.old.router live.new.router }
    ensures stays { live.new.at ≡ live.old.at }
{
    senders(live.get_mut())
}

/// How many queues the router has. 0 once it was reclaimed.
#[unsafe(no_mangle)]
pub extern "C" fn clk_raw_live_queues(live: &mut LiveHandle) -> usize
    ensures queues { IsCount live.old.router queue_count result }
    ensures unchanged { IsUnchanged live.old.router live.new.router }
    ensures stays { live.new.at ≡ live.old.at }
{
    queues(live.get_mut())
}

/// How many devices the router has. 0 once it was reclaimed.
#[unsafe(no_mangle)]
pub extern "C" fn clk_raw_live_devices(live: &mut LiveHandle) -> usize
    ensures devices { IsCount live.old.router device_count result }
    ensures unchanged { IsUnchanged live.old.router live.new.router }
    ensures stays { live.new.at ≡ live.old.at }
{
    devices(live.get_mut())
}

/// Fills in the latest moment, in ticks, of the device with this number: the greatest at which it was pulled, or 0 before its first pull.
#[unsafe(no_mangle)]
pub extern "C" fn clk_raw_live_moment(live: &mut LiveHandle, device: u16, moment: &mut u64) -> u32
    ensures answer { AnswersTold live.old.router live.new.router result (λ s. TellsMoment s.course device moment.new result) (λ s. HasNoDevice s.course device result) (moment.new ≡ moment.old) }
    ensures stays { live.new.at ≡ live.old.at }
{
    tell_moment(live.get_mut(), device, moment)
}

/// Fills in the earliest moment, in ticks, at which a pull of the device with this number could emit a packet, as things stand. If no
/// packet is left for the device, it fills in nothing.
#[unsafe(no_mangle)]
pub extern "C" fn clk_raw_live_due(live: &mut LiveHandle, device: u16, moment: &mut u64) -> u32
    ensures answer { AnswersTold live.old.router live.new.router result (λ s. TellsDue s.course device moment.old moment.new result) (λ s. HasNoDevice s.course device result) (moment.new ≡ moment.old) }
    ensures stays { live.new.at ≡ live.old.at }
{
    tell_due(live.get_mut(), device, moment)
}

/// Fills in how many packets are left for the device with this number: accepted there, and neither evicted nor emitted. Packets that wait
/// in the inlets don't count.
#[unsafe(no_mangle)]
pub extern "C" fn clk_raw_live_left(live: &mut LiveHandle, device: u16, packets: &mut u64) -> u32
    ensures answer { AnswersTold live.old.router live.new.router result (λ s. TellsLeft s.course device packets.new result) (λ s. HasNoDevice s.course device result) (packets.new ≡ packets.old) }
    ensures stays { live.new.at ≡ live.old.at }
{
    tell_left(live.get_mut(), device, packets)
}

/// Fills in the totals of the packets that were taken from the sender at this place. Places go from 0 on, in the order of the senders'
/// numbers.
#[unsafe(no_mangle)]
pub extern "C" fn clk_raw_live_account(
    live: &mut LiveHandle,
    place: usize,
    account: &mut CAccount,
) -> u32
    ensures answer { AnswersTold live.old.router live.new.router result (λ s. TellsAccount s.course place account.new result) (λ s. HasNoPlace s.course place result) (account.new ≡ account.old) }
    ensures stays { live.new.at ≡ live.old.at }
{
    tell_account(live.get_mut(), place, account)
}

/// Fills in the state of the queue with this number.
#[unsafe(no_mangle)]
pub extern "C" fn clk_raw_live_queue(live: &mut LiveHandle, number: u16, queue: &mut CQueue) -> u32
    ensures answer { AnswersTold live.old.router live.new.router result (λ s. TellsQueue s.course number queue.new result) (λ s. HasNoQueue s.course number result) (queue.new ≡ queue.old) }
    ensures stays { live.new.at ≡ live.old.at }
{
    tell_queue(live.get_mut(), number, queue)
}

// Each function below does to the router what the export of a like name does to its handle.

fn ended(router: &mut LiveRouter) -> u32
    ensures { AnswersTold router.old router.new result (λ s. TellsEnded s result) (λ s. ⊥) (result ≡ result) }
{
    let Some(live) = &router.live else {
        return RECLAIMED;
    };
    if live.is_ended() { OK } else { NONE }
}

fn drained(router: &mut LiveRouter) -> u32
    ensures { AnswersTold router.old router.new result (λ s. TellsDrained s result) (λ s. ⊥) (result ≡ result) }
{
    let Some(live) = &router.live else {
        return RECLAIMED;
    };
    if live.is_drained() { OK } else { NONE }
}

fn senders(router: &mut LiveRouter) -> usize
    ensures senders { IsCount router.old sender_count result }
    ensures unchanged { IsUnchanged router.old router.new }
{
    let Some(live) = &router.live else {
        return 0;
    };
    live.router().accounts().len()
}

fn queues(router: &mut LiveRouter) -> usize
    ensures queues { IsCount router.old queue_count result }
    ensures unchanged { IsUnchanged router.old router.new }
{
    let Some(live) = &router.live else {
        return 0;
    };
    live.router().queues()
}

fn devices(router: &mut LiveRouter) -> usize
    ensures devices { IsCount router.old device_count result }
    ensures unchanged { IsUnchanged router.old router.new }
{
    let Some(live) = &router.live else {
        return 0;
    };
    live.router().devices()
}

fn tell_moment(router: &mut LiveRouter, device: u16, moment: &mut u64) -> u32
    ensures { AnswersTold router.old router.new result (λ s. TellsMoment s.course device moment.new result) (λ s. HasNoDevice s.course device result) (moment.new ≡ moment.old) }
{
    let Some(live) = &router.live else {
        return RECLAIMED;
    };
    let router = live.router();
    if usize::from(device) >= router.devices() {
        return UNKNOWN_DEVICE;
    }
    *moment = router.moment(device);
    OK
}

fn tell_due(router: &mut LiveRouter, device: u16, moment: &mut u64) -> u32
    ensures { AnswersTold router.old router.new result (λ s. TellsDue s.course device moment.old moment.new result) (λ s. HasNoDevice s.course device result) (moment.new ≡ moment.old) }
{
    let Some(live) = &router.live else {
        return RECLAIMED;
    };
    let router = live.router();
    if usize::from(device) >= router.devices() {
        return UNKNOWN_DEVICE;
    }
    match router.due(device) {
        Some(due) => {
            *moment = due;
            OK
        }
        None => NONE,
    }
}

fn tell_left(router: &mut LiveRouter, device: u16, packets: &mut u64) -> u32
    ensures { AnswersTold router.old router.new result (λ s. TellsLeft s.course device packets.new result) (λ s. HasNoDevice s.course device result) (packets.new ≡ packets.old) }
{
    let Some(live) = &router.live else {
        return RECLAIMED;
    };
    let router = live.router();
    if usize::from(device) >= router.devices() {
        return UNKNOWN_DEVICE;
    }
    *packets = router.left(device);
    OK
}

fn tell_account(router: &mut LiveRouter, place: usize, account: &mut CAccount) -> u32
    ensures { AnswersTold router.old router.new result (λ s. TellsAccount s.course place account.new result) (λ s. HasNoPlace s.course place result) (account.new ≡ account.old) }
{
    let Some(live) = &router.live else {
        return RECLAIMED;
    };
    match live.router().accounts().get(place) {
        Some(found) => {
            *account = account_for_c(found);
            OK
        }
        None => UNKNOWN_SENDER,
    }
}

fn tell_queue(router: &mut LiveRouter, number: u16, queue: &mut CQueue) -> u32
    ensures { AnswersTold router.old router.new result (λ s. TellsQueue s.course number queue.new result) (λ s. HasNoQueue s.course number result) (queue.new ≡ queue.old) }
{
    let Some(live) = &router.live else {
        return RECLAIMED;
    };
    let router = live.router();
    if usize::from(number) >= router.queues() {
        return UNKNOWN_QUEUE;
    }
    *queue = queue_for_c(router.queue(number));
    OK
}
