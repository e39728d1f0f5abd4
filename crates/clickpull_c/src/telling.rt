//! Calls that tell the state of a router and change nothing.

ghost use Rattle.std.specs.Prelude.{◌≡◌, ◌⊎◌};
ghost use Rattle.clickpull_c.specs.Answers.{HasNoDevice, HasNoName, HasNoPlace, HasNoQueue};
ghost use Rattle.clickpull_c.specs.Counts.{device_count, queue_count, sender_count};
ghost use Rattle.clickpull_c.specs.Tells.{TellsAccount, TellsDue, TellsLeft, TellsMoment, TellsName, TellsQueue};

// These calls take a router mutably too, since no export takes a struct that lends what it owns.
use crate::handle::Handle;
use crate::statuses::{FULL, NONE, OK, UNKNOWN_DEVICE, UNKNOWN_QUEUE, UNKNOWN_SENDER};
use crate::values::{CAccount, CQueue, account_for_c, queue_for_c};

/// How many senders the router has.
#[unsafe(no_mangle)]
pub extern "C" fn clk_router_senders(router: &mut Handle) -> usize
    ensures senders { result ≡ sender_count router.old.router }
    ensures unchanged { router.new.router ≡ router.old.router }
    ensures stays { router.new.at ≡ router.old.at }
{
    router.get_mut().accounts().len()
}

/// How many queues the router has.
#[unsafe(no_mangle)]
pub extern "C" fn clk_router_queues(router: &mut Handle) -> usize
    ensures queues { result ≡ queue_count router.old.router }
    ensures unchanged { router.new.router ≡ router.old.router }
    ensures stays { router.new.at ≡ router.old.at }
{
    router.get_mut().queues()
}

/// How many devices the router has.
#[unsafe(no_mangle)]
pub extern "C" fn clk_router_devices(router: &mut Handle) -> usize
    ensures devices { result ≡ device_count router.old.router }
    ensures unchanged { router.new.router ≡ router.old.router }
    ensures stays { router.new.at ≡ router.old.at }
{
    router.get_mut().devices()
}

/// Fills in the latest moment, in ticks, of the device with this number: the greatest at which it was pulled, or 0 before its first pull.
#[unsafe(no_mangle)]
pub extern "C" fn clk_router_moment(router: &mut Handle, device: u16, moment: &mut u64) -> u32
    ensures answer { TellsMoment router.old.router device moment.new result ⊎ (HasNoDevice router.old.router device result × (moment.new ≡ moment.old)) }
    ensures unchanged { router.new.router ≡ router.old.router }
    ensures stays { router.new.at ≡ router.old.at }
{
    let router = router.get_mut();
    if usize::from(device) >= router.devices() {
        return UNKNOWN_DEVICE;
    }
    *moment = router.moment(device);
    OK
}

/// Fills in the earliest moment, in ticks, at which a pull of the device with this number could emit a packet, as things stand. If no
/// packet is left for the device, it fills in nothing.
#[unsafe(no_mangle)]
pub extern "C" fn clk_router_due(router: &mut Handle, device: u16, moment: &mut u64) -> u32
    ensures answer { TellsDue router.old.router device moment.old moment.new result ⊎ (HasNoDevice router.old.router device result × (moment.new ≡ moment.old)) }
    ensures unchanged { router.new.router ≡ router.old.router }
    ensures stays { router.new.at ≡ router.old.at }
{
    let router = router.get_mut();
    if usize::from(device) >= router.devices() {
        return UNKNOWN_DEVICE;
    }
    match router.due(device) {
        Some(due) => {
            *moment = due;
            OK
        }
        None => NONE,
    }
}

/// Fills in how many packets are left for the device with this number: accepted there, and neither evicted nor emitted.
#[unsafe(no_mangle)]
pub extern "C" fn clk_router_left(router: &mut Handle, device: u16, packets: &mut u64) -> u32
    ensures answer { TellsLeft router.old.router device packets.new result ⊎ (HasNoDevice router.old.router device result × (packets.new ≡ packets.old)) }
    ensures unchanged { router.new.router ≡ router.old.router }
    ensures stays { router.new.at ≡ router.old.at }
{
    let router = router.get_mut();
    if usize::from(device) >= router.devices() {
        return UNKNOWN_DEVICE;
    }
    *packets = router.left(device);
    OK
}

/// Fills in the totals of the packets that the sender at this place offered. Places go from 0 on, in the order of the senders' numbers.
#[unsafe(no_mangle)]
pub extern "C" fn clk_router_account(
    router: &mut Handle,
    place: usize,
    account: &mut CAccount,
) -> u32
    ensures answer { TellsAccount router.old.router place account.new result ⊎ (HasNoPlace router.old.router place result × (account.new ≡ account.old)) }
    ensures unchanged { router.new.router ≡ router.old.router }
    ensures stays { router.new.at ≡ router.old.at }
{
    match router.get_mut().accounts().get(place) {
        Some(found) => {
            *account = account_for_c(found);
            OK
        }
        None => UNKNOWN_SENDER,
    }
}

/// Puts the name of the sender at this place to the front of a buffer, if it has room, and fills in how many bytes the name has. Places go
/// from 0 on, in the order of the senders' numbers. The name is that of the sender's element in the text.
#[unsafe(no_mangle)]
pub extern "C" fn clk_router_sender_name(
    router: &mut Handle,
    place: usize,
    buffer: &mut [u8],
    needed: &mut usize,
) -> u32
    ensures answer { TellsName router.old.router place buffer.old buffer.new needed.new result
        ⊎ (HasNoName router.old.router place result × (buffer.new ≡ buffer.old) × (needed.new ≡ 0)) }
    ensures unchanged { router.new.router ≡ router.old.router }
    ensures stays { router.new.at ≡ router.old.at }
{
    let Some(name) = router.get_mut().sender_name(place) else {
        *needed = 0;
        return UNKNOWN_SENDER;
    };
    *needed = name.len();
    if name.len() > buffer.len() {
        return FULL;
    }
    buffer[..name.len()].copy_from_slice(name);
    OK
}

/// Fills in the state of the queue with this number.
#[unsafe(no_mangle)]
pub extern "C" fn clk_router_queue(router: &mut Handle, number: u16, queue: &mut CQueue) -> u32
    ensures answer { TellsQueue router.old.router number queue.new result ⊎ (HasNoQueue router.old.router number result × (queue.new ≡ queue.old)) }
    ensures unchanged { router.new.router ≡ router.old.router }
    ensures stays { router.new.at ≡ router.old.at }
{
    let router = router.get_mut();
    if usize::from(number) >= router.queues() {
        return UNKNOWN_QUEUE;
    }
    *queue = queue_for_c(router.queue(number));
    OK
}
