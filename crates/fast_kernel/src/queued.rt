//! What is next among the reports and the updates, and the times among the keys.
ghost use Rattle.std.specs.Prelude.{◌≡◌, ◌∷◌, [], IsTrue, MatchOption, OnErr, OnOk, drop};
ghost use Rattle.gpi.specs.Keys.{is_time};
ghost use Rattle.callback_book.specs.Books.{AddsTime, DropsTime};
ghost use Rattle.event_queue.specs.Queues.{held, processes_of};
ghost use Rattle.fast_kernel.specs.Times.{IsNewTime, IsOldTime};

use event_queue::Queue;
use gpi::{Key, Report, Update};
use port_io::NoMemory;

/// The next report, of which so many were told.
pub fn next_report(reports: &[Report], told: &mut usize) -> Option<Report>
    ensures { MatchOption result ((drop told.old reports.now ≡ []) × (told.new ≡ told.old))
        (λ report. drop told.old reports.now ≡ report ∷ drop told.new reports.now) }
{
    if *told >= reports.len() {
        return None;
    }
    let report = reports[*told];
    *told += 1;
    Some(report)
}

/// Takes the first due update, if one is due.
pub fn take_due(queue: &mut Queue) -> Option<Update>
    ensures is { MatchOption result (((held queue.old).due ≡ []) × (queue.new ≡ queue.old))
        (λ update. held queue.old ≡ record (held queue.new) { due = update ∷ (held queue.new).due }) }
    ensures processes { processes_of queue.new ≡ processes_of queue.old }
{
    if !queue.is_due() {
        return None;
    }
    queue.due()
}

/// Takes the first later update, where none is due; the others become due.
pub fn take_later(queue: &mut Queue) -> Option<Update>
    requires { (held queue.old).due ≡ [] }
    ensures is { MatchOption result (((held queue.old).later ≡ []) × (held queue.new ≡ held queue.old))
        (λ update. held queue.old ≡ record (held queue.new) { due = []; later = update ∷ (held queue.new).due }) }
    ensures none { MatchOption result ((held queue.new).later ≡ []) (λ update. (held queue.new).later ≡ []) }
    ensures processes { processes_of queue.new ≡ processes_of queue.old }
{
    queue.due()
}

/// A key that is a time is put among the registered ones. Its one error is the want of memory, and then nothing has changed.
pub fn add_time(queue: &mut Queue, key: Key) -> Result<(), NoMemory>
    requires { IsNewTime key (held queue.old).times }
    ensures times { OnOk result (AddsTime key (held queue.old).times (held queue.new).times) }
    ensures others { held queue.new ≡ record (held queue.old) { times = (held queue.new).times } }
    ensures kept { OnErr result (held queue.new ≡ held queue.old) }
    ensures cause { OnErr result (IsTrue (is_time key)) }
    ensures processes { processes_of queue.new ≡ processes_of queue.old }
{
    match key {
        Key::At(time) => queue.add_time(time),
        _ => Ok(()),
    }
}

/// A key that is a time is taken out of the registered ones.
pub fn drop_time(queue: &mut Queue, key: Key)
    requires { IsOldTime key (held queue.old).times }
    ensures times { DropsTime key (held queue.old).times (held queue.new).times }
    ensures others { held queue.new ≡ record (held queue.old) { times = (held queue.new).times } }
    ensures processes { processes_of queue.new ≡ processes_of queue.old }
{
    match key {
        Key::At(time) => queue.drop_time(time),
        _ => {}
    }
}
