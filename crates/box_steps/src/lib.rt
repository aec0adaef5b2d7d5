// What a checked message and a taken command make of the record, and what they send. The outgoing buffer has 2,048 bytes at
// least, which is more than any step writes.
#![tactic(auto)]

ghost use Rattle.std.specs.Prelude.{◌≡◌, true, false, ◌-◌, ◌<◌, ◌≤◌, length};
ghost use Rattle.rules.specs.Messages.{tag_in, has_matrix, message_in, side_tag};
ghost use Rattle.rules.specs.Record.{heard_for, sound};
ghost use Rattle.rules.specs.Steps.{heard, lowest, ready_sent, completed, send_step, point_step, recovering, share_step, message_step, deal_step, completed_share, share_bytes, recover_step};
ghost use Rattle.rules.specs.Answers.{refusal_heard};
ghost use Rattle.rules.specs.Laws.Numbers.{Ranges};
ghost use Rattle.rules.specs.Laws.Passed.{Hearing, Passed, DealPassed, RecoverPassed};
ghost use Rattle.message_writing.specs.Written.{Writes};
ghost use Rattle.box_step.specs.Takes.{made, Takes};
ghost use Rattle.box_steps.specs.Sender.{Sender, Speaks};

use box_step::Step;
use rules::{Element, Four, Message, Pair, Polynomials, Record, Sent, Side, Slot};

// ---- messages

// A checked send of sender m + 1: an echo to each box.
fn take_send(out: &mut [u8], x: Record, m: usize, c: [[Element; 8]; 8], all: Polynomials) -> Step
    requires { Speaks x m (length out.old) }
    ensures { Takes (send_step (heard x 1 m) c all) out.old result out.new }
{
    let u = x.setup;
    let group = session_numbers::group_of(u);
    let fours = dealing::echo_fours(group.q, u.k as usize, u.n as usize, all);
    let bytes = message_writing::write_points(out, u, Side::ByEcho, c, fours);
    box_step::sending(record_writing::heard_for(x, 1, m), Sent::Echo, bytes)
}

// Slot s as it now is has points enough: the pair is kept, and a ready goes to each box. The message was of this side, from sender m + 1.
fn send_ready(out: &mut [u8], x: Record, side: Side, m: usize, s: usize, fresh: Slot) -> Step
    requires { Speaks x m (length out.old) × (s < 20) }
    ensures { Takes (ready_sent (heard x (side_tag side) m) s fresh (lowest (heard x (side_tag side) m) fresh)) out.old result out.new }
{
    let u = x.setup;
    let group = session_numbers::group_of(u);
    let ready = record_points::ready_from(group.q, u.k as usize, u.n as usize, fresh.places);
    let bytes = message_writing::write_points(out, u, Side::ByReady, fresh.rows, ready.fours);
    let kept = record_slots::with_pair(fresh, ready.pair);
    box_step::sending(
        record_writing::heard_at_slot(x, side, m, s, kept),
        Sent::Ready,
        bytes,
    )
}

// The box completes, if it has not before.
#[tactic(auto, unfolding(box_step::specs::Takes::made, rules::specs::Steps::completed))]
fn complete(x: Record, s: usize) -> Step
    ensures { result ≡ made (completed x s) }
{
    Step {
        completed: x.progress.completion.is_none(),
        ..box_step::quiet(record_writing::completed_with(x, s))
    }
}

// A checked echo or ready of sender m + 1.
fn take_point(
    out: &mut [u8],
    x: Record,
    side: Side,
    m: usize,
    c: [[Element; 8]; 8],
    four: Four,
) -> Step
    requires { Speaks x m (length out.old) × (heard_for x (side_tag side) m ≡ false) }
    ensures { Takes (point_step side (heard x (side_tag side) m) m c four) out.old result out.new }
{
    let s = record_slots::slot_for(x, c);
    let open = record_slots::opened_for(c, x.slots[s]);
    let fresh = record_slots::with_point(open, side, m, four);
    if record_slots::due::ready_due(x.setup, side, fresh) {
        return send_ready(out, x, side, m, s, fresh);
    }
    let next = record_writing::heard_at_slot(x, side, m, s, fresh);
    if record_slots::due::completion_due(x.setup, side, fresh) {
        return complete(next, s);
    }
    box_step::quiet(next)
}

// What these recovery shares give: the pair, where they are k.
#[tactic(auto, unfolding(box_step::specs::Takes::made, rules::specs::Steps::recovering))]
fn recovering(x: Record, shares: [Option<Pair>; 10]) -> Step
    requires { Ranges x.setup }
    ensures { result ≡ made (recovering x shares) }
{
    let u = x.setup;
    if record_reading::count_shares(shares) != u.k {
        return box_step::quiet(record_writing::with_shares(x, shares, x.recovered));
    }
    let group = session_numbers::group_of(u);
    let recovered = Some(record_points::recovered_from(group.q, u.k as usize, shares));
    Step {
        recovered,
        ..box_step::quiet(record_writing::with_shares(x, shares, recovered))
    }
}

// A checked recovery share of sender m + 1.
fn take_share(x: Record, m: usize, pair: Pair) -> Step
    requires { Sender x m }
    ensures { result ≡ made (share_step (heard x 4 m) m pair) }
{
    let mut shares = x.shares;
    shares[m] = Some(pair);
    recovering(record_writing::heard_for(x, 4, m), shares)
}

// A checked message, by its kind.
pub fn take(out: &mut [u8], x: Record, sender: u32, bytes: &[u8]) -> Step
    requires { Passed x sender bytes.now × (2048 ≤ length out.old) }
    ensures { Takes (message_step x (sender - 1) (message_in x.setup bytes.now)) out.old result out.new }
{
    let m = sender as usize - 1;
    match message_reading::read(bytes, x.setup) {
        Message::Send(c, all) => take_send(out, x, m, c, all),
        Message::Echo(c, four) => take_point(out, x, Side::ByEcho, m, c, four),
        Message::Ready(c, four) => take_point(out, x, Side::ByReady, m, c, four),
        Message::Recovery(pair) => take_share(x, m, pair),
    }
}

// The record after a refusal at the hearing: a message with a matrix marks its sender heard, a recovery share nobody. The tag is a
// number, since `refusal_heard` is over it.
#[tactic(auto, unfolding(rules::specs::Answers::refusal_heard, rules::specs::Messages::has_matrix))]
pub fn refused_at_hearing(x: Record, sender: u32, bytes: &[u8]) -> Record
    requires { Hearing x sender bytes.now }
    ensures { result ≡ refusal_heard (has_matrix (tag_in bytes.now)) x sender bytes.now }
{
    let tag = bytes[0];
    if tag == 4 {
        return x;
    }
    record_writing::heard_for(x, usize::from(tag), sender as usize - 1)
}

// ---- commands

// The deal: a send to each box.
pub fn take_deal(out: &mut [u8], x: Record, secret: u32, coins: &[u16]) -> Step
    requires { DealPassed x secret coins.now (length out.old) }
    ensures { Takes (deal_step x secret coins.now) out.old result out.new }
{
    let u = x.setup;
    let k = u.k as usize;
    let group = session_numbers::group_of(u);
    let f = coins::from_coins(u, secret as u16, coins, 0);
    let f2 = coins::from_coins(u, secret as u16, coins, k * k);
    let c = dealing::commit_all(group, k, f, f2);
    let all = dealing::polynomials_for_all(group.q, k, u.n as usize, f, f2);
    let bytes = message_writing::write_sends(out, u, c, all);
    box_step::sending(record_writing::dealt(x), Sent::Send, bytes)
}

// The pair of the completed slot.
fn completed_share(x: Record) -> Option<Pair>
    requires { sound x ≡ true }
    ensures { result ≡ completed_share x x.progress.completion }
{
    x.slots[x.progress.completion?].pair
}

// The completed share to each box: how many bytes.
#[tactic(auto, unfolding(rules::specs::Messages::written))]
fn write_own_share(out: &mut [u8], x: Record) -> usize
    requires { RecoverPassed x (length out.old) }
    ensures { Writes (share_bytes x.setup (completed_share x x.progress.completion)) out.old out.new result }
{
    match completed_share(x) {
        Some(pair) => message_writing::write_shares(out, x.setup, pair),
        None => 0,
    }
}

// The recovery command of a completed box.
pub fn take_command(out: &mut [u8], x: Record) -> Step
    requires { RecoverPassed x (length out.old) }
    ensures { Takes (recover_step x) out.old result out.new }
{
    let bytes = write_own_share(out, x);
    box_step::sending(record_writing::commanded(x), Sent::Recovery, bytes)
}
